// The codes of items, and their stages: the order of the checks of one token.

// A label of a node, or a type of a relationship, that nothing declares.
pub const UNKNOWN_LABEL: u32 = 3001;

pub const UNKNOWN_REL_TYPE: u32 = 3002;

// A key that nothing declares, or whose value is of another type.
pub const UNKNOWN_KEY: u32 = 3003;

pub const WRONG_TYPE: u32 = 3004;

// A call of what nothing declares, or with a number of arguments that it does not take.
pub const UNKNOWN_FUNCTION: u32 = 3006;

pub const WRONG_COUNT: u32 = 3007;

pub const UNKNOWN_PROCEDURE: u32 = 3008;

// A merge by keys that no tuple backs.
pub const UNBACKED_KEYS: u32 = 3009;

// Two labels that are apart.
pub const LABELS_APART: u32 = 4023;

// Names and calls, labels together, keys, and the keys of a merge.
pub const OF_NAMES: u32 = 0;

pub const OF_LABELS: u32 = 1;

pub const OF_KEYS: u32 = 2;

pub const OF_MERGES: u32 = 3;
