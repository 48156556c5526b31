//! The keys of each command, as rows.

use crate::rows::{Form, Key, KeyRow, LABELS, MOST_HIERARCHIES, MOST_TURNS};

/// The most files of a kind of which there may be several.
const MOST_FILES: usize = 64;

/// The key that says whether notes are written.
const NOTES: KeyRow = KeyRow {
    form: Form::Number { low: 0, high: 1 },
    least: 0,
    most: 1,
    key: Key::Notes,
};

/// The keys of the command `grid`.
pub const GRID_KEYS: [KeyRow; 7] = [
    KeyRow {
        form: Form::Number {
            low: 0,
            high: 65535,
        },
        least: 1,
        most: 1,
        key: Key::Seed,
    },
    KeyRow {
        form: Form::Number { low: 1, high: 1000 },
        least: 1,
        most: 1,
        key: Key::Width,
    },
    KeyRow {
        form: Form::Number { low: 1, high: 1000 },
        least: 1,
        most: 1,
        key: Key::Height,
    },
    KeyRow {
        form: Form::Place,
        least: 1,
        most: 1,
        key: Key::From,
    },
    KeyRow {
        form: Form::Place,
        least: 1,
        most: 1,
        key: Key::To,
    },
    KeyRow {
        form: Form::File,
        least: 0,
        most: 1,
        key: Key::Lookups,
    },
    KeyRow {
        form: Form::ProfileFile,
        least: 0,
        most: 1,
        key: Key::Profile,
    },
];

/// The keys of the command `make`.
pub const MAKE_KEYS: [KeyRow; 4] = [
    KeyRow {
        form: Form::Number {
            low: 0,
            high: 65535,
        },
        least: 1,
        most: 1,
        key: Key::Seed,
    },
    KeyRow {
        form: Form::Number { low: 1, high: 1000 },
        least: 1,
        most: 1,
        key: Key::Width,
    },
    KeyRow {
        form: Form::Number { low: 1, high: 1000 },
        least: 1,
        most: 1,
        key: Key::Height,
    },
    KeyRow {
        form: Form::Product,
        least: 1,
        most: 1,
        key: Key::What,
    },
];

/// The keys of the command `code`.
pub const CODE_KEYS: [KeyRow; 2] = [
    KeyRow {
        form: Form::File,
        least: 1,
        most: 1,
        key: Key::Lookups,
    },
    KeyRow {
        form: Form::ProfileFile,
        least: 1,
        most: 1,
        key: Key::Profile,
    },
];

/// The keys of the commands `route` and `table`.
pub const ROUTE_KEYS: [KeyRow; 6] = [
    KeyRow {
        form: Form::File,
        least: 1,
        most: 1,
        key: Key::Lookups,
    },
    KeyRow {
        form: Form::ProfileFile,
        least: 1,
        most: 1,
        key: Key::Profile,
    },
    KeyRow {
        form: Form::File,
        least: 1,
        most: 1,
        key: Key::Map,
    },
    KeyRow {
        form: Form::Query,
        least: 1,
        most: 1,
        key: Key::Query,
    },
    KeyRow {
        form: Form::File,
        least: 0,
        most: MOST_FILES,
        key: Key::Tile,
    },
    NOTES,
];

/// The keys of the command `certify`.
pub const CERTIFY_KEYS: [KeyRow; 7] = [
    KeyRow {
        form: Form::File,
        least: 1,
        most: 1,
        key: Key::Lookups,
    },
    KeyRow {
        form: Form::ProfileFile,
        least: 1,
        most: 1,
        key: Key::Profile,
    },
    KeyRow {
        form: Form::File,
        least: 1,
        most: 1,
        key: Key::Map,
    },
    KeyRow {
        form: Form::Query,
        least: 1,
        most: 1,
        key: Key::Query,
    },
    KeyRow {
        form: Form::File,
        least: 0,
        most: MOST_FILES,
        key: Key::Tile,
    },
    NOTES,
    KeyRow {
        form: Form::Number { low: 0, high: 1 },
        least: 0,
        most: 1,
        key: Key::Bound,
    },
];

/// The keys of the command `check`.
pub const CHECK_KEYS: [KeyRow; 7] = [
    KeyRow {
        form: Form::File,
        least: 1,
        most: 1,
        key: Key::Lookups,
    },
    KeyRow {
        form: Form::ProfileFile,
        least: 1,
        most: 1,
        key: Key::Profile,
    },
    KeyRow {
        form: Form::File,
        least: 1,
        most: 1,
        key: Key::Map,
    },
    KeyRow {
        form: Form::Query,
        least: 1,
        most: 1,
        key: Key::Query,
    },
    KeyRow {
        form: Form::File,
        least: 0,
        most: MOST_FILES,
        key: Key::Tile,
    },
    NOTES,
    KeyRow {
        form: Form::File,
        least: 1,
        most: 1,
        key: Key::Certificate,
    },
];

/// The keys of the command `within`.
pub const WITHIN_KEYS: [KeyRow; 7] = [
    KeyRow {
        form: Form::File,
        least: 1,
        most: 1,
        key: Key::Lookups,
    },
    KeyRow {
        form: Form::ProfileFile,
        least: 1,
        most: 1,
        key: Key::Profile,
    },
    KeyRow {
        form: Form::File,
        least: 1,
        most: 1,
        key: Key::Map,
    },
    KeyRow {
        form: Form::Query,
        least: 1,
        most: 1,
        key: Key::Query,
    },
    KeyRow {
        form: Form::File,
        least: 0,
        most: MOST_FILES,
        key: Key::Tile,
    },
    NOTES,
    KeyRow {
        form: Form::Cost,
        least: 1,
        most: 1,
        key: Key::Cost,
    },
];

/// The keys of the command `hills`.
pub const HILLS_KEYS: [KeyRow; 3] = [
    KeyRow {
        form: Form::Number {
            low: 0,
            high: 65535,
        },
        least: 1,
        most: 1,
        key: Key::Seed,
    },
    KeyRow {
        form: Form::Number { low: 1, high: 1000 },
        least: 1,
        most: 1,
        key: Key::Width,
    },
    KeyRow {
        form: Form::Number { low: 1, high: 1000 },
        least: 1,
        most: 1,
        key: Key::Height,
    },
];

/// The keys of the command `serve`.
pub const SERVE_KEYS: [KeyRow; 10] = [
    KeyRow {
        form: Form::File,
        least: 1,
        most: 1,
        key: Key::Lookups,
    },
    KeyRow {
        form: Form::File,
        least: 1,
        most: 1,
        key: Key::Map,
    },
    KeyRow {
        form: Form::ProfileFile,
        least: 0,
        most: MOST_FILES,
        key: Key::Profile,
    },
    KeyRow {
        form: Form::File,
        least: 0,
        most: MOST_FILES,
        key: Key::Tile,
    },
    KeyRow {
        form: Form::Address,
        least: 0,
        most: 1,
        key: Key::Listen,
    },
    KeyRow {
        form: Form::Number {
            low: 1,
            high: MOST_TURNS,
        },
        least: 0,
        most: 1,
        key: Key::Turns,
    },
    KeyRow {
        form: Form::Number { low: 0, high: 1 },
        least: 0,
        most: 1,
        key: Key::Hangup,
    },
    KeyRow {
        form: LABELS,
        least: 0,
        most: 1,
        key: Key::Labels,
    },
    KeyRow {
        form: Form::Number {
            low: 0,
            high: MOST_HIERARCHIES,
        },
        least: 0,
        most: 1,
        key: Key::Hierarchies,
    },
    NOTES,
];
