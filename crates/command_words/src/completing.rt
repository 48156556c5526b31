//! The command of a name and of what the words after it give.

ghost use Rattle.std.specs.Prelude.{◌≡◌, option_map};
ghost use Rattle.command_words.specs.Command.{complete, file_in, files_in, files_with, grid_by, lies_in, number_or, ride_by, ride_in, ride_over, sizes_in};
ghost use Rattle.command_words.specs.Reader.{entry_with};
ghost use Rattle.command_words.specs.Refusals.{now_of};
ghost use Rattle.command_words.specs.Rows.{default_number};
ghost use Rattle.command_words.specs.declared.rows.CommandName.{CommandName};
ghost use Rattle.command_words.specs.declared.rows.Key.{Key};

use crate::command::{
    CertifyCommand, CheckCommand, CodeCommand, Command, GridCommand, HillsCommand, MakeCommand,
    RouteCommand, ServeCommand, WithinCommand,
};
use crate::entry::{Entry, FileWord};
use crate::reader::entry_with;
use crate::rows::{CommandName, Key, SERVER_NOTES};
use crate::value::Place;
use item_list::Items;

/// The seed of a grid and its sizes.
#[derive(Clone, Copy)]
struct Sizes {
    seed: u64,
    w: u64,
    h: u64,
}

/// The command of this name and these entries, which name these profiles and tiles, before the word
/// at the place `after`.
#[tactic(auto, unfolding(crate::specs::Command::complete))]
pub fn complete<'a>(
    command: CommandName,
    entries: &[Entry<'a>],
    profiles: Items<FileWord<'a>>,
    tiles: Items<FileWord<'a>>,
    after: u64,
) -> Result<Command<'a>, u64>
    requires profiles { profiles ≡ files_in Key.Profile entries.now }
    requires tiles { tiles ≡ files_in Key.Tile entries.now }
    ensures exact { result ≡ complete command entries.now after }
{
    match command {
        CommandName::Grid => complete_grid(entries, after),
        CommandName::Make => complete_make(entries, after),
        CommandName::Code => complete_code(entries, after),
        CommandName::Hills => complete_hills(entries, after),
        CommandName::Serve => complete_serve(entries, profiles, tiles, after),
        CommandName::Route
        | CommandName::Certify
        | CommandName::Check
        | CommandName::Table
        | CommandName::Within => complete_ride(command, entries, tiles, after),
    }
}

/// The seed and the sizes that these entries give.
fn sizes_in(entries: &[Entry]) -> Option<Sizes>
    ensures exact { result ≡ sizes_in entries.now }
{
    match (
        entry_with(entries, Key::Seed),
        entry_with(entries, Key::Width),
        entry_with(entries, Key::Height),
    ) {
        (Some(seed), Some(w), Some(h)) => Some(Sizes {
            seed: seed.number(),
            w: w.number(),
            h: h.number(),
        }),
        _ => None,
    }
}

/// The command `grid` of these entries, before the word at the place `after`.
#[tactic(auto, unfolding(crate::specs::Command::complete))]
fn complete_grid<'a>(entries: &[Entry<'a>], after: u64) -> Result<Command<'a>, u64>
    ensures exact { result ≡ complete CommandName.Grid entries.now after }
{
    let lookups = entry_with(entries, Key::Lookups);
    let profile = entry_with(entries, Key::Profile);
    match (
        sizes_in(entries),
        entry_with(entries, Key::From),
        entry_with(entries, Key::To),
    ) {
        (Some(sizes), Some(from), Some(to)) => match files_with(lookups, profile, after) {
            Ok(files) => grid_by(sizes, from, to, files),
            Err(word) => Err(word),
        },
        _ => Err(after),
    }
}

/// The files of a profile, where both are there or neither is, before the word at the place
/// `after`.
fn files_with<'a>(
    lookups: Option<&Entry<'a>>,
    profile: Option<&Entry<'a>>,
    after: u64,
) -> Result<Option<CodeCommand<'a>>, u64>
    ensures exact { result ≡
        files_with after (option_map now_of lookups.entry) (option_map now_of profile.entry) }
{
    match lookups {
        Some(lookups) => match profile {
            Some(profile) => Ok(Some(CodeCommand {
                lookups: lookups.file(),
                profile: profile.file(),
            })),
            None => Err(after),
        },
        None => match profile {
            Some(_) => Err(after),
            None => Ok(None),
        },
    }
}

/// The grid of a seed and sizes between two places, where they lie in it.
fn grid_by<'a>(
    sizes: Sizes,
    from: &Entry,
    to: &Entry,
    files: Option<CodeCommand<'a>>,
) -> Result<Command<'a>, u64>
    ensures exact { result ≡ grid_by sizes from.now to.now files.entry }
{
    if !lies_in(sizes.w, sizes.h, from.place()) {
        return Err(from.word());
    }
    if !lies_in(sizes.w, sizes.h, to.place()) {
        return Err(to.word());
    }
    Ok(Command::Grid(GridCommand {
        from: from.place(),
        to: to.place(),
        seed: sizes.seed,
        w: sizes.w,
        h: sizes.h,
        files,
    }))
}

/// The command `make` of these entries, before the word at the place `after`.
#[tactic(auto, unfolding(crate::specs::Command::complete))]
fn complete_make<'a>(entries: &[Entry<'a>], after: u64) -> Result<Command<'a>, u64>
    ensures exact { result ≡ complete CommandName.Make entries.now after }
{
    match (sizes_in(entries), entry_with(entries, Key::What)) {
        (Some(sizes), Some(what)) => Ok(Command::Make(MakeCommand {
            seed: sizes.seed,
            w: sizes.w,
            h: sizes.h,
            what: what.product(),
        })),
        _ => Err(after),
    }
}

/// The command `code` of these entries, before the word at the place `after`.
#[tactic(auto, unfolding(crate::specs::Command::complete))]
fn complete_code<'a>(entries: &[Entry<'a>], after: u64) -> Result<Command<'a>, u64>
    ensures exact { result ≡ complete CommandName.Code entries.now after }
{
    match (
        entry_with(entries, Key::Lookups),
        entry_with(entries, Key::Profile),
    ) {
        (Some(lookups), Some(profile)) => Ok(Command::Code(CodeCommand {
            lookups: lookups.file(),
            profile: profile.file(),
        })),
        _ => Err(after),
    }
}

/// The command `hills` of these entries, before the word at the place `after`.
#[tactic(auto, unfolding(crate::specs::Command::complete))]
fn complete_hills<'a>(entries: &[Entry<'a>], after: u64) -> Result<Command<'a>, u64>
    ensures exact { result ≡ complete CommandName.Hills entries.now after }
{
    match sizes_in(entries) {
        Some(sizes) => Ok(Command::Hills(HillsCommand {
            seed: sizes.seed,
            w: sizes.w,
            h: sizes.h,
        })),
        None => Err(after),
    }
}

/// The command of this name for the query of these entries, which name these tiles, before the word
/// at the place `after`; `route` where the name is that of no other such command.
fn complete_ride<'a>(
    command: CommandName,
    entries: &[Entry<'a>],
    tiles: Items<FileWord<'a>>,
    after: u64,
) -> Result<Command<'a>, u64>
    requires tiles { tiles ≡ files_in Key.Tile entries.now }
    ensures exact { result ≡ ride_over after command (ride_in entries.now) entries.now }
{
    match ride_in(entries, tiles) {
        Some(route) => ride_by(command, route, entries, after),
        None => Err(after),
    }
}

/// The query of these entries, which name these tiles, and the files that it is answered over.
fn ride_in<'a>(entries: &[Entry<'a>], tiles: Items<FileWord<'a>>) -> Option<RouteCommand<'a>>
    requires tiles { tiles ≡ files_in Key.Tile entries.now }
    ensures exact { result ≡ ride_in entries.now }
{
    match (
        entry_with(entries, Key::Lookups),
        entry_with(entries, Key::Profile),
        entry_with(entries, Key::Map),
        entry_with(entries, Key::Query),
    ) {
        (Some(lookups), Some(profile), Some(map), Some(query)) => Some(RouteCommand {
            lookups: lookups.file(),
            profile: profile.file(),
            map: map.file(),
            query: query.file(),
            tiles,
            notes: number_for(entries, Key::Notes) == 1,
        }),
        _ => None,
    }
}

/// The command of this name for a query, with what these entries give beside it, before the word at
/// the place `after`; `route` where the name is that of no other such command.
fn ride_by<'a>(
    command: CommandName,
    route: RouteCommand<'a>,
    entries: &[Entry<'a>],
    after: u64,
) -> Result<Command<'a>, u64>
    ensures exact { result ≡ ride_by after command route.entry entries.now }
{
    match command {
        CommandName::Certify => Ok(Command::Certify(CertifyCommand {
            route,
            bound: number_for(entries, Key::Bound) == 1,
        })),
        CommandName::Check => match entry_with(entries, Key::Certificate) {
            Some(certificate) => Ok(Command::Check(CheckCommand {
                route,
                certificate: certificate.file(),
            })),
            None => Err(after),
        },
        CommandName::Table => Ok(Command::Table(route)),
        CommandName::Within => match entry_with(entries, Key::Cost) {
            Some(cost) => Ok(Command::Within(WithinCommand {
                route,
                cost: cost.number(),
            })),
            None => Err(after),
        },
        _ => Ok(Command::Route(route)),
    }
}

/// The command `serve` of these entries, which name these profiles and tiles, before the word at
/// the place `after`.
#[tactic(auto, unfolding(crate::specs::Command::complete))]
fn complete_serve<'a>(
    entries: &[Entry<'a>],
    profiles: Items<FileWord<'a>>,
    tiles: Items<FileWord<'a>>,
    after: u64,
) -> Result<Command<'a>, u64>
    requires profiles { profiles ≡ files_in Key.Profile entries.now }
    requires tiles { tiles ≡ files_in Key.Tile entries.now }
    ensures exact { result ≡ complete CommandName.Serve entries.now after }
{
    match (
        entry_with(entries, Key::Lookups),
        entry_with(entries, Key::Map),
    ) {
        (Some(lookups), Some(map)) => Ok(Command::Serve(ServeCommand {
            lookups: lookups.file(),
            map: map.file(),
            profiles,
            tiles,
            listen: file_of(entry_with(entries, Key::Listen)),
            turns: number_for(entries, Key::Turns),
            hangup: number_for(entries, Key::Hangup) == 1,
            labels: number_for(entries, Key::Labels),
            hierarchies: number_for(entries, Key::Hierarchies),
            notes: number_or(entry_with(entries, Key::Notes), SERVER_NOTES) == 1,
        })),
        _ => Err(after),
    }
}

/// What an entry that may be missing names.
fn file_of<'a>(entry: Option<&Entry<'a>>) -> Option<FileWord<'a>>
    ensures exact { result ≡ option_map file_in (option_map now_of entry.entry) }
{
    match entry {
        Some(entry) => Some(entry.file()),
        None => None,
    }
}

/// The number of the entry of a key, or what stands for it where the entry is missing.
fn number_for(entries: &[Entry], key: Key) -> u64
    ensures exact { result ≡ number_or (entry_with key entries.now) (default_number key) }
{
    number_or(entry_with(entries, key), key.default_number())
}

/// The number of an entry, or this one where the entry is missing.
#[tactic(auto, unfolding(crate::specs::Command::number_or))]
fn number_or(entry: Option<&Entry>, missing: u64) -> u64
    ensures exact { result ≡ number_or (option_map now_of entry.entry) missing }
{
    match entry {
        Some(entry) => entry.number(),
        None => missing,
    }
}

/// Whether a place lies in a grid of these sizes.
fn lies_in(w: u64, h: u64, place: Place) -> bool
    ensures exact { result ≡ lies_in w h place }
{
    place.x < w && place.y < h
}
