//! The command that the words are.

ghost use Rattle.std.specs.Prelude.{◌≡◌, Ok, Err, IfOk, MatchResult};
ghost use Rattle.command_words.specs.Command.{address_of, command_named, command_of, command_with, files_in};
ghost use Rattle.command_words.specs.Fit.{IsFit};
ghost use Rattle.command_words.specs.Refusals.{OnUsage, texts_of};

use crate::completing::complete;
use crate::entry::{Entry, FileWord};
use crate::reader::{Refusal, entries_of};
use crate::rows::{COMMANDS, CommandName, Key};
use crate::value::{Place, Product};
use item_list::Items;
use std::alloc::{AllocError, Global};

/// The command `grid`: the grid of a seed with `w` cells in a row and `h` rows, two places in it,
/// and the files of a profile, if it is to go by one.
#[derive(Drop)]
pub struct GridCommand<'a> {
    pub from: Place,
    pub to: Place,
    pub seed: u64,
    pub w: u64,
    pub h: u64,
    pub files: Option<CodeCommand<'a>>,
}

/// The command `make`: the grid of a seed with `w` cells in a row and `h` rows, and what is made of
/// it.
#[derive(Clone, Copy)]
pub struct MakeCommand {
    pub seed: u64,
    pub w: u64,
    pub h: u64,
    pub what: Product,
}

/// The command `code`: the files of the tag table and of the profile.
#[derive(Drop)]
pub struct CodeCommand<'a> {
    pub lookups: FileWord<'a>,
    pub profile: FileWord<'a>,
}

/// The commands `route` and `table`: the files of the tag table, of the profile, of the map and of
/// the tiles, a query, and whether notes are written.
#[derive(Drop)]
pub struct RouteCommand<'a> {
    pub lookups: FileWord<'a>,
    pub profile: FileWord<'a>,
    pub map: FileWord<'a>,
    pub query: FileWord<'a>,
    pub tiles: Items<FileWord<'a>>,
    pub notes: bool,
}

/// The command `certify`: what the command `route` is given, and whether labels rank with the lower
/// bound of what is still to pay.
#[derive(Drop)]
pub struct CertifyCommand<'a> {
    pub route: RouteCommand<'a>,
    pub bound: bool,
}

/// The command `check`: what the command `route` is given, and the file of a certificate.
#[derive(Drop)]
pub struct CheckCommand<'a> {
    pub route: RouteCommand<'a>,
    pub certificate: FileWord<'a>,
}

/// The command `within`: what the command `route` is given, and a cost in millionths.
#[derive(Drop)]
pub struct WithinCommand<'a> {
    pub route: RouteCommand<'a>,
    pub cost: u64,
}

/// The command `hills`: the hilly grid of a seed with `w` cells in a row and `h` rows.
#[derive(Clone, Copy)]
pub struct HillsCommand {
    pub seed: u64,
    pub w: u64,
    pub h: u64,
}

/// The command `serve`: the files of the tag table, of the map, of the profiles and of the tiles,
/// where to listen, if that is told, how many events are taken at most, whether an end of a peer is
/// the loss of its connection, how many labels a search may settle for an alternative of a leg, for
/// how many profiles a hierarchy is kept, and whether notes are written.
pub struct ServeCommand<'a> {
    pub lookups: FileWord<'a>,
    pub map: FileWord<'a>,
    pub profiles: Items<FileWord<'a>>,
    pub tiles: Items<FileWord<'a>>,
    pub listen: Option<FileWord<'a>>,
    pub turns: u64,
    pub hangup: bool,
    pub labels: u64,
    pub hierarchies: u64,
    pub notes: bool,
}

impl<'a> Drop for ServeCommand<'a> {
    fn drop(self) {
        let ServeCommand {
            lookups: _,
            map: _,
            profiles: _,
            tiles: _,
            listen: _,
            turns: _,
            hangup: _,
            labels: _,
            hierarchies: _,
            notes: _,
        } = self;
    }
}

/// Where a server listens that isn't told.
pub const ADDRESS: &str = "127.0.0.1:17777";

impl<'a> ServeCommand<'a> {
    /// The address to listen at.
    #[tactic(auto, unfolding(crate::specs::Command::address_of))]
    pub fn address(&self) -> &'a str
        ensures exact { result.now ≡ address_of self.now.listen }
    {
        match &self.listen {
            Some(word) => word.name(),
            None => ADDRESS,
        }
    }
}

/// What the words ask for.
#[derive(Drop)]
pub enum Command<'a> {
    Grid(GridCommand<'a>),
    Make(MakeCommand),
    Code(CodeCommand<'a>),
    Route(RouteCommand<'a>),
    Certify(CertifyCommand<'a>),
    Check(CheckCommand<'a>),
    Table(RouteCommand<'a>),
    Within(WithinCommand<'a>),
    Hills(HillsCommand),
    Serve(ServeCommand<'a>),
}

/// The command of the words; `Usage` with the place of the first word at fault.
pub fn command_of(alloc: Global, words: &[String]) -> Result<Command<'_>, Refusal>
    ensures exact { MatchResult result (λ command.
        command_of (texts_of words.now) ≡ Ok command) (λ refusal.
        OnUsage refusal (λ word. command_of (texts_of words.now) ≡ Err word)) }
    ensures fit { IfOk result IsFit }
{
    let [name, rest @ ..] = words else {
        return Err(Refusal::Usage(0));
    };
    match command_named(name.as_bytes()) {
        Some(command) => command_with(alloc, command, rest),
        None => Err(Refusal::Usage(0)),
    }
}

/// The command that a word names.
#[tactic(auto, unfolding(crate::specs::Command::command_named))]
pub fn command_named(name: &[u8]) -> Option<CommandName>
    ensures exact { result ≡ command_named name.now }
{
    COMMANDS
        .iter()
        .copied()
        .find(|command| command.name().as_bytes() == name)
}

/// The command of this name and the words after it.
fn command_with(
    alloc: Global,
    command: CommandName,
    words: &[String],
) -> Result<Command<'_>, Refusal>
    ensures exact { MatchResult result (λ given.
        command_with command (texts_of words.now) ≡ Ok given) (λ refusal.
        OnUsage refusal (λ word. command_with command (texts_of words.now) ≡ Err word)) }
{
    let entries = entries_of(alloc, command.keys(), words)?;
    let Ok(profiles) = files_of(alloc, entries.as_slice(), Key::Profile) else {
        return Err(Refusal::NoMemory);
    };
    let Ok(tiles) = files_of(alloc, entries.as_slice(), Key::Tile) else {
        return Err(Refusal::NoMemory);
    };
    match complete(
        command,
        entries.as_slice(),
        profiles,
        tiles,
        words.len() as u64 + 1,
    ) {
        Ok(command) => Ok(command),
        Err(word) => Err(Refusal::Usage(word)),
    }
}

/// The files that entries of a key name.
fn files_of<'a>(
    alloc: Global,
    entries: &[Entry<'a>],
    key: Key,
) -> Result<Items<FileWord<'a>>, AllocError>
    ensures exact { IfOk result (λ files. files ≡ files_in key entries.now) }
{
    let mut files = Items::new(alloc);
    'entries: for entry in entries {
        if entry.is_of(key) {
            files.push(entry.file())?;
        }
    }
    Ok(files)
}
