//! The commands as rows: their names, and what a key with the form of its value is.

ghost use Rattle.std.specs.Prelude.{◌≡◌};
ghost use Rattle.command_words.specs.Rows.{about_of, command_name, default_number, key_name, keys_of};

use crate::keys::{
    CERTIFY_KEYS, CHECK_KEYS, CODE_KEYS, GRID_KEYS, HILLS_KEYS, MAKE_KEYS, ROUTE_KEYS, SERVE_KEYS,
    WITHIN_KEYS,
};

/// The keys of the words after a command.
#[derive(Clone, Copy)]
pub enum Key {
    Seed,
    Width,
    Height,
    From,
    To,
    What,
    Lookups,
    Profile,
    Map,
    Query,
    Tile,
    Listen,
    Turns,
    Hangup,
    Labels,
    Hierarchies,
    Certificate,
    Cost,
    Bound,
    Notes,
}

/// What the value of a key has to be.
#[derive(Clone, Copy)]
pub enum Form {
    /// A number of 1 to 19 digits from `low` to `high`.
    Number { low: u64, high: u64 },
    /// Two such numbers, parted by a comma.
    Place,
    /// What is made, by its name.
    Product,
    /// The name of a file.
    File,
    /// The name of a profile's file.
    ProfileFile,
    /// A query.
    Query,
    /// An address to listen at: an IP address and a port.
    Address,
    /// A cost: a number as a profile's literal spells it, which isn't negative.
    Cost,
}

/// A key of a command, the form of its value, and how often it is wanted at least and at most.
#[derive(Clone, Copy)]
pub struct KeyRow {
    pub form: Form,
    pub least: usize,
    pub most: usize,
    pub key: Key,
}

/// What the first word may name.
#[derive(Clone, Copy)]
pub enum CommandName {
    Grid,
    Make,
    Code,
    Route,
    Certify,
    Check,
    Table,
    Within,
    Hills,
    Serve,
}

/// The most events that a server may be told to take, and how many it takes at most where it isn't
/// told: 2^63.
pub const MOST_TURNS: u64 = 1 << 63;

/// The most labels that a server may be told to settle for an alternative of a leg, and how many it
/// settles at most where it isn't told.
pub const MOST_LABELS: u64 = 4_000_000_000;

/// How many labels a server may be told to settle.
pub const LABELS: Form = Form::Number {
    low: 1,
    high: MOST_LABELS,
};

/// The most profiles for which a server may be told to keep a hierarchy, and for how many it keeps one
/// where it isn't told.
pub const MOST_HIERARCHIES: u64 = 8;

/// Whether a server notes what it does where it isn't told.
pub const SERVER_NOTES: u64 = 1;

/// The commands that are built.
pub const COMMANDS: [CommandName; 10] = [
    CommandName::Grid,
    CommandName::Make,
    CommandName::Code,
    CommandName::Route,
    CommandName::Certify,
    CommandName::Check,
    CommandName::Table,
    CommandName::Within,
    CommandName::Hills,
    CommandName::Serve,
];

impl Key {
    /// What stands before the equals sign.
    #[tactic(auto, unfolding(crate::specs::Rows::key_name))]
    pub fn name(self) -> &'static str
        ensures exact { result.now ≡ key_name self }
    {
        match self {
            Key::Seed => "seed",
            Key::Width => "w",
            Key::Height => "h",
            Key::From => "from",
            Key::To => "to",
            Key::What => "what",
            Key::Lookups => "lookups",
            Key::Profile => "profile",
            Key::Map => "map",
            Key::Query => "query",
            Key::Tile => "tile",
            Key::Listen => "listen",
            Key::Turns => "turns",
            Key::Hangup => "hangup",
            Key::Labels => "labels",
            Key::Hierarchies => "hierarchies",
            Key::Certificate => "certificate",
            Key::Cost => "cost",
            Key::Bound => "bound",
            Key::Notes => "notes",
        }
    }

    /// The number that stands for it where it isn't given.
    pub fn default_number(self) -> u64
        ensures exact { result ≡ default_number self }
    {
        match self {
            Key::Turns => MOST_TURNS,
            Key::Labels => MOST_LABELS,
            Key::Hierarchies => MOST_HIERARCHIES,
            _ => 0,
        }
    }
}

impl CommandName {
    /// The first word.
    #[tactic(auto, unfolding(crate::specs::Rows::command_name))]
    pub fn name(self) -> &'static str
        ensures exact { result.now ≡ command_name self }
    {
        match self {
            CommandName::Grid => "grid",
            CommandName::Make => "make",
            CommandName::Code => "code",
            CommandName::Route => "route",
            CommandName::Certify => "certify",
            CommandName::Check => "check",
            CommandName::Table => "table",
            CommandName::Within => "within",
            CommandName::Hills => "hills",
            CommandName::Serve => "serve",
        }
    }

    /// The keys of the further words.
    #[tactic(auto, unfolding(crate::specs::Rows::keys_of))]
    pub fn keys(self) -> &'static [KeyRow]
        ensures exact { result.now ≡ keys_of self }
    {
        match self {
            CommandName::Grid => &GRID_KEYS,
            CommandName::Make => &MAKE_KEYS,
            CommandName::Code => &CODE_KEYS,
            CommandName::Route | CommandName::Table => &ROUTE_KEYS,
            CommandName::Certify => &CERTIFY_KEYS,
            CommandName::Check => &CHECK_KEYS,
            CommandName::Within => &WITHIN_KEYS,
            CommandName::Hills => &HILLS_KEYS,
            CommandName::Serve => &SERVE_KEYS,
        }
    }

    /// What the command does, as the help says it.
    #[tactic(auto, unfolding(crate::specs::Rows::about_of))]
    pub fn about(self) -> &'static str
        ensures exact { result.now ≡ about_of self }
    {
        match self {
            CommandName::Grid =>
                "prints a shortest walk across the grid of w by h cells of a seed, or a cheapest \
                 one by a profile",
            CommandName::Make =>
                "writes the map of the grid of w by h cells of a seed, or the tile of heights of \
                 the seed",
            CommandName::Code => "prints the flat code of a profile under a tag table",
            CommandName::Route =>
                "answers a query over a map by a profile, with heights from tiles",
            CommandName::Certify =>
                "prints a certificate of the track that answers a query: its walks, and labels \
                 that show them least",
            CommandName::Check =>
                "tests a certificate for a query without a search of labels, and prints the cost \
                 of its track",
            CommandName::Table =>
                "prints what it costs at least to come from each waypoint of a query to each",
            CommandName::Within =>
                "prints each node to which it costs at most so much to come from a waypoint of a \
                 query, with what it costs at least",
            CommandName::Hills =>
                "prints what the cheapest track costs from corner to corner of the hilly grid of \
                 w by h cells of a seed",
            CommandName::Serve =>
                "answers routes, tables and certificates over HTTP, and takes profiles",
        }
    }
}
