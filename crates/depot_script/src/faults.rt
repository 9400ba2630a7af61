//! Why a command is refused: the tests of the faults, in their order.

ghost use Rattle.std.specs.Prelude.{◌≡◌, is_none};
ghost use Rattle.std.specs.List.{list_any};
ghost use Rattle.desc_types.specs.Lookups.{find_feed, find_table};
ghost use Rattle.depot_script.specs.Faults.{command_tests, first_fault, has_bad_level};
ghost use Rattle.depot_script.specs.Faults.{has_bad_number, has_bad_tick, items, lacks_feed};
ghost use Rattle.depot_script.specs.Faults.{lacks_table, read_level};
ghost use Rattle.depot_script.specs.Values.{written_command};
ghost use Rattle.depot_script.specs.Written.{WrittenItemOf};

use crate::fault::CommandFault;
use crate::values::{BODY_LIMIT, NUMBER_LIMIT, is_bad_number, read_level};
use crate::written::{WrittenCommand, WrittenItem};
use desc_types::{Desc, END, place_of_feed, place_of_table};
use std::slice;

/// The first fault of a command, if it has one.
pub fn first_fault(desc: &Desc, command: &WrittenCommand) -> Option<CommandFault>
    ensures exact { result ≡ first_fault (command_tests desc.now (written_command command.now)) }
{
    if has_bad_level(command) {
        Some(CommandFault::BadWord)
    } else if has_bad_number(command) {
        Some(CommandFault::BadNumber)
    } else if lacks_feed(desc, command) {
        Some(CommandFault::NoFeed)
    } else if lacks_table(desc, command) {
        Some(CommandFault::NoTable)
    } else {
        None
    }
}

/// The items of a command.
fn items<'s, 'a>(command: &'s WrittenCommand<'a>) -> &'s [WrittenItem<'a>]
    ensures exact { result.now ≡ items (written_command command.now) }
{
    match command {
        WrittenCommand::Query(items) => items,
        WrittenCommand::Marks(item) => slice::from_ref(item),
        _ => &[],
    }
}

fn has_bad_level(command: &WrittenCommand) -> bool
    ensures exact { result ≡ has_bad_level (written_command command.now) }
{
    have_bad_level(items(command))
}

fn have_bad_level(items: &[WrittenItem]) -> bool
    ensures exact { result
        ≡ list_any (λ (item : WrittenItemOf). is_none (read_level item.level)) items.now }
{
    items.iter().any(|item| read_level(item.level).is_none())
}

fn has_bad_number(command: &WrittenCommand) -> bool
    ensures exact { result ≡ has_bad_number (written_command command.now) }
{
    match command {
        WrittenCommand::Deliver {
            number,
            closes,
            size,
            ..
        } => {
            is_bad_number(NUMBER_LIMIT, number)
                || is_bad_number(END, closes)
                || is_bad_number(BODY_LIMIT, size)
        }
        _ => have_bad_tick(items(command)),
    }
}

fn have_bad_tick(items: &[WrittenItem]) -> bool
    ensures exact { result ≡ list_any has_bad_tick items.now }
{
    items.iter().any(|item| has_bad_tick(item))
}

fn has_bad_tick(item: &WrittenItem) -> bool
    ensures exact { result ≡ has_bad_tick item.now }
{
    is_bad_number(END, item.from) || is_bad_number(END, item.to)
}

fn lacks_feed(desc: &Desc, command: &WrittenCommand) -> bool
    ensures exact { result ≡ lacks_feed desc.now (written_command command.now) }
{
    match command {
        WrittenCommand::Deliver { feed, .. } => is_no_feed(desc, feed),
        WrittenCommand::Aside { feed } => is_no_feed(desc, feed),
        _ => false,
    }
}

fn is_no_feed(desc: &Desc, name: &[u8]) -> bool
    ensures exact { result ≡ is_none (find_feed desc.now name.now) }
{
    place_of_feed(&desc.feeds, name).is_none()
}

fn lacks_table(desc: &Desc, command: &WrittenCommand) -> bool
    ensures exact { result ≡ lacks_table desc.now (written_command command.now) }
{
    lack_table(desc, items(command))
}

fn lack_table(desc: &Desc, items: &[WrittenItem]) -> bool
    ensures exact { result
        ≡ list_any (λ (item : WrittenItemOf). is_none (find_table desc.now item.table)) items.now }
{
    items.iter().any(|item| is_no_table(desc, item.table))
}

fn is_no_table(desc: &Desc, name: &[u8]) -> bool
    ensures exact { result ≡ is_none (find_table desc.now name.now) }
{
    place_of_table(&desc.tables, name).is_none()
}
