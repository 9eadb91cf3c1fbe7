// The kinds of tokens by name, as `specs/Kinds.antt` has them.

// The tokens below which nothing stands: names and numbers.
pub const NAME: u8 = 50;

pub const NUMBER: u8 = 51;

// A statement and its clauses.
pub const STATEMENT: u8 = 90;

pub const MATCH: u8 = 70;

pub const CREATE: u8 = 71;

pub const MERGE: u8 = 72;

pub const WHERE: u8 = 73;

pub const WITH: u8 = 74;

pub const RETURN: u8 = 75;

pub const UNWIND: u8 = 76;

pub const SET: u8 = 77;

pub const REMOVE: u8 = 78;

pub const DELETE: u8 = 79;

pub const PROCEDURE_CALL: u8 = 85;

// The items of a Set and of a Remove.
pub const SET_PROPERTY: u8 = 80;

pub const ASSIGN_MAP: u8 = 81;

pub const SET_LABELS: u8 = 82;

pub const REMOVE_PROPERTY: u8 = 83;

pub const REMOVE_LABELS: u8 = 84;

// Patterns.
pub const PATTERN: u8 = 60;

pub const PART: u8 = 61;

pub const NODE: u8 = 62;

pub const REL: u8 = 63;

// Expressions.
pub const NULL: u8 = 1;

pub const BOOL: u8 = 2;

pub const INT: u8 = 3;

pub const FLOAT: u8 = 4;

pub const STRING: u8 = 5;

pub const VAR: u8 = 6;

pub const PARAM: u8 = 7;

pub const UNRESOLVED: u8 = 8;

pub const EXISTS_SUBQUERY_DEFERRED: u8 = 9;

pub const PROP: u8 = 10;

pub const INDEX: u8 = 11;

pub const SLICE: u8 = 12;

pub const LIST: u8 = 13;

pub const MAP: u8 = 14;

pub const FUNCTION_CALL: u8 = 16;

pub const BIN_OP: u8 = 17;

pub const UNARY_OP: u8 = 18;

pub const IS_NULL: u8 = 19;

pub const CASE: u8 = 20;

pub const IN_LIST: u8 = 21;

pub const PATTERN_PREDICATE: u8 = 22;

pub const PATTERN_COMPREHENSION: u8 = 23;

pub const LIST_COMPREHENSION: u8 = 24;

pub const LIST_PREDICATE: u8 = 25;

pub const MAP_PROJECTION: u8 = 26;

// The items of a MapProjection.
pub const COMPUTED: u8 = 27;

pub const ALIASED: u8 = 28;

pub const PROP_COPY: u8 = 29;

pub const VAR_SHORTHAND: u8 = 30;

// A schema and its declarations.
pub const SCHEMA: u8 = 100;

pub const LABEL: u8 = 101;

pub const REL_TYPE: u8 = 102;

pub const PARAMETER: u8 = 103;

pub const FUNCTION: u8 = 104;

pub const PROCEDURE: u8 = 105;

pub const APART: u8 = 106;

// The items of a Label and of a RelType.
pub const PROPERTY: u8 = 110;

pub const TUPLE: u8 = 111;

pub const START: u8 = 112;

pub const END: u8 = 113;

// The first and the last of the types that a schema declares; `types` names them all.
pub const FIRST_TYPE: u8 = 120;

pub const LAST_TYPE: u8 = 128;
