// The tags of osmformat.proto's fields that a view takes: the field number times 8 plus the wire type, as the file's text and document 01
// name them. A column may be packed (`KEYS`) or a single value (`KEYS_ONE`). They are constants, message by message, that each view's match
// names: an enum of them would write the table a second time.

pub mod primitive_block {
    pub const STRING_TABLE: u32 = 1 * 8 + 2;

    pub const GROUP: u32 = 2 * 8 + 2;

    pub const GRANULARITY: u32 = 17 * 8;

    pub const DATE_GRANULARITY: u32 = 18 * 8;

    pub const LAT_OFFSET: u32 = 19 * 8;

    pub const LON_OFFSET: u32 = 20 * 8;
}

pub mod string_table {
    pub const STRINGS: u32 = 1 * 8 + 2;
}

pub mod node {
    pub const ID: u32 = 1 * 8;

    pub const KEYS: u32 = 2 * 8 + 2;

    pub const KEYS_ONE: u32 = 2 * 8;

    pub const VALS: u32 = 3 * 8 + 2;

    pub const VALS_ONE: u32 = 3 * 8;

    pub const INFO: u32 = 4 * 8 + 2;

    pub const LAT: u32 = 8 * 8;

    pub const LON: u32 = 9 * 8;
}

pub mod way {
    pub const ID: u32 = 1 * 8;

    pub const KEYS: u32 = 2 * 8 + 2;

    pub const KEYS_ONE: u32 = 2 * 8;

    pub const VALS: u32 = 3 * 8 + 2;

    pub const VALS_ONE: u32 = 3 * 8;

    pub const INFO: u32 = 4 * 8 + 2;

    pub const REFS: u32 = 8 * 8 + 2;

    pub const REFS_ONE: u32 = 8 * 8;

    pub const LAT: u32 = 9 * 8 + 2;

    pub const LAT_ONE: u32 = 9 * 8;

    pub const LON: u32 = 10 * 8 + 2;

    pub const LON_ONE: u32 = 10 * 8;

    pub const PINS: u32 = 20 * 8 + 2;
}

pub mod relation {
    pub const ID: u32 = 1 * 8;

    pub const KEYS: u32 = 2 * 8 + 2;

    pub const KEYS_ONE: u32 = 2 * 8;

    pub const VALS: u32 = 3 * 8 + 2;

    pub const VALS_ONE: u32 = 3 * 8;

    pub const INFO: u32 = 4 * 8 + 2;

    pub const ROLES: u32 = 8 * 8 + 2;

    pub const ROLES_ONE: u32 = 8 * 8;

    pub const MEMIDS: u32 = 9 * 8 + 2;

    pub const MEMIDS_ONE: u32 = 9 * 8;

    pub const TYPES: u32 = 10 * 8 + 2;

    pub const TYPES_ONE: u32 = 10 * 8;
}

pub mod dense_nodes {
    pub const ID: u32 = 1 * 8 + 2;

    pub const ID_ONE: u32 = 1 * 8;

    pub const INFO: u32 = 5 * 8 + 2;

    pub const LAT: u32 = 8 * 8 + 2;

    pub const LAT_ONE: u32 = 8 * 8;

    pub const LON: u32 = 9 * 8 + 2;

    pub const LON_ONE: u32 = 9 * 8;

    pub const KEYS_VALS: u32 = 10 * 8 + 2;

    pub const KEYS_VALS_ONE: u32 = 10 * 8;
}

pub mod dense_info {
    pub const VERSION: u32 = 1 * 8 + 2;

    pub const VERSION_ONE: u32 = 1 * 8;

    pub const TIMESTAMP: u32 = 2 * 8 + 2;

    pub const TIMESTAMP_ONE: u32 = 2 * 8;

    pub const CHANGESET: u32 = 3 * 8 + 2;

    pub const CHANGESET_ONE: u32 = 3 * 8;

    pub const UID: u32 = 4 * 8 + 2;

    pub const UID_ONE: u32 = 4 * 8;

    pub const USER_SID: u32 = 5 * 8 + 2;

    pub const USER_SID_ONE: u32 = 5 * 8;

    pub const VISIBLE: u32 = 6 * 8 + 2;

    pub const VISIBLE_ONE: u32 = 6 * 8;
}

pub mod info {
    pub const VERSION: u32 = 1 * 8;

    pub const TIMESTAMP: u32 = 2 * 8;

    pub const CHANGESET: u32 = 3 * 8;

    pub const UID: u32 = 4 * 8;

    pub const USER_SID: u32 = 5 * 8;

    pub const VISIBLE: u32 = 6 * 8;
}

pub mod primitive_group {
    pub const NODE: u32 = 1 * 8 + 2;

    pub const DENSE: u32 = 2 * 8 + 2;

    pub const WAY: u32 = 3 * 8 + 2;

    pub const RELATION: u32 = 4 * 8 + 2;
}
