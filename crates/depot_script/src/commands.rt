//! The command of a line, or its first fault.

ghost use Rattle.std.specs.Prelude.{◌≡◌, Some, map, option_map, IfOk};
ghost use Rattle.depot_script.specs.Commands.{command_of_words, command_said, feed_said, if_counted};
ghost use Rattle.depot_script.specs.Commands.{item_said};
ghost use Rattle.depot_script.specs.Values.{command_value, read_value, written_command};

use crate::command::Command;
use crate::fault::CommandFault;
use crate::faults::first_fault;
use crate::reading::{is_command, read_written};
use crate::values::{BODY_LIMIT, NUMBER_LIMIT, number_said, read_level};
use crate::written::{WrittenCommand, WrittenItem};
use depot_cell::Memory;
use desc_lines::begins_comment;
use desc_types::{AcceptedDesc, END, find_feed, find_table};
use query_pin::Request;
use std::alloc::Global;
use std::slice;
use view_meaning::{Item, Mark};

/// The command of a line of these words, or the first fault of the line.
pub fn read_command(
    alloc: Global,
    served: &AcceptedDesc,
    words: &[&[u8]],
) -> Result<Result<Command, CommandFault>, Memory>
    ensures exact { IfOk result (λ read. read_value read
        ≡ command_of_words served.now.desc (map (λ word. word.now) words.now)) }
{
    match words {
        [] => Ok(Ok(Command::Nothing)),
        [first, others @ ..] => {
            if begins_comment(first) {
                Ok(Ok(Command::Nothing))
            } else if is_command(first) {
                if_counted(alloc, served, read_written(alloc, first, others)?)
            } else {
                Ok(Err(CommandFault::BadWord))
            }
        }
    }
}

fn if_counted(
    alloc: Global,
    served: &AcceptedDesc,
    command: Option<WrittenCommand>,
) -> Result<Result<Command, CommandFault>, Memory>
    ensures exact { IfOk result (λ read. read_value read
        ≡ if_counted served.now.desc (option_map written_command command.entry)) }
{
    match command {
        None => Ok(Err(CommandFault::BadCount)),
        Some(command) => unless_faulty(alloc, served, &command),
    }
}

fn unless_faulty(
    alloc: Global,
    served: &AcceptedDesc,
    command: &WrittenCommand,
) -> Result<Result<Command, CommandFault>, Memory>
    ensures exact { IfOk result (λ read. read_value read
        ≡ if_counted served.now.desc (Some (written_command command.now))) }
{
    match first_fault(&served.desc, command) {
        Some(fault) => Ok(Err(fault)),
        None => Ok(Ok(command_said(alloc, served, command)?)),
    }
}

fn command_said(
    alloc: Global,
    served: &AcceptedDesc,
    command: &WrittenCommand,
) -> Result<Command, Memory>
    ensures exact { IfOk result (λ said. command_value said
        ≡ command_said served.now.desc (written_command command.now)) }
{
    match command {
        WrittenCommand::Deliver {
            feed,
            number,
            closes,
            size,
        } => Ok(Command::Deliver {
            feed: feed_said(served, feed),
            number: number_said(NUMBER_LIMIT, number) as u32,
            closes: number_said(END, closes),
            size: number_said(BODY_LIMIT, size),
        }),
        WrittenCommand::Drain => Ok(Command::Drain),
        WrittenCommand::Query(items) => Ok(Command::Query(request_said(alloc, served, items)?)),
        WrittenCommand::Marks(item) => {
            let items = slice::from_ref(item);
            Ok(Command::Marks(request_said(alloc, served, items)?))
        }
        WrittenCommand::Aside { feed } => Ok(Command::Aside {
            feed: feed_said(served, feed),
        }),
        WrittenCommand::Reclaim => Ok(Command::Reclaim),
        WrittenCommand::End => Ok(Command::End),
    }
}

fn feed_said(served: &AcceptedDesc, name: &[u8]) -> u16
    ensures exact { result ≡ feed_said served.now.desc name.now }
{
    match find_feed(served, name) {
        Some(feed) => feed,
        None => 0,
    }
}

fn request_said(
    alloc: Global,
    served: &AcceptedDesc,
    items: &[WrittenItem],
) -> Result<Request, Memory>
    ensures exact { IfOk result (λ request. request ≡ map (item_said served.now.desc) items.now) }
{
    let mut said = Vec::new(alloc);
    for item in items {
        said.push(item_said(served, item))?;
    }
    Ok(Request { items: said })
}

fn item_said(served: &AcceptedDesc, item: &WrittenItem) -> Item
    ensures exact { result ≡ item_said served.now.desc item.now }
{
    Item {
        table: find_table(served, item.table).unwrap_or(0),
        from: number_said(END, item.from),
        to: number_said(END, item.to),
        level: read_level(item.level).unwrap_or(Mark::Open),
    }
}
