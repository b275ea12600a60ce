//! The lines of a script, and the replies to them: docs/FORMAT.md, 'Scripts'.
use crate::listed::{LISTED, three_files};
use actor_parts::Actor;
use refusals::{PartKind, Refusal};
use script_lines::{Holdings, Line, Reply, Turned, print_reply, read_line};
use std::alloc::Global;
use std::test::Fail;

/// The actor of a number below 64.
fn actor_of(number: u64) -> Result<Actor, Fail> {
    match Actor::new(number) {
        Some(actor) => Ok(actor),
        None => Err("no actor has the number".into()),
    }
}

#[test]
fn each_reply_to_an_actor_has_its_line(rt: HostRuntime) -> Result<(), Fail> {
    let alloc = rt.alloc();
    let (first, actor, last) = (actor_of(0)?, actor_of(7)?, actor_of(63)?);
    let rows: [(Reply<'_>, &[u8]); 13] = [
        (Reply::Begun { actor: first }, b"begun 0\n"),
        (
            Reply::Pushed {
                actor: last,
                bytes: 1_099_511_627_776,
            },
            b"pushed 63 1099511627776\n",
        ),
        (Reply::Finished { actor, bytes: 0 }, b"finished 7 0\n"),
        (turn(actor, Turned::Held), b"turn 7 held\n"),
        (turn(actor, Turned::Absent), b"turn 7 absent\n"),
        (
            turn(
                actor,
                Turned::Sealed {
                    id: 18_446_744_073_709_551_614,
                },
            ),
            b"turn 7 sealed 18446744073709551614\n",
        ),
        (turn(actor, Turned::Idle), b"turn 7 idle\n"),
        (
            Reply::Committed {
                actor,
                sequence: 1_025,
            },
            b"committed 7 1025\n",
        ),
        (Reply::Aborted { actor }, b"aborted 7\n"),
        (Reply::Reading { actor, length: 3 }, b"reading 7 3\n"),
        (
            Reply::Bytes {
                actor,
                bytes: &[0x61, 0x0a, 0xff],
            },
            b"bytes 7 610aff\n",
        ),
        (Reply::End { actor }, b"end 7\n"),
        (Reply::Dropped { actor }, b"dropped 7\n"),
    ];
    for (reply, line) in &rows[..] {
        assert!(rt; is_printed(alloc, reply, line)?);
    }
    Ok(())
}

#[test]
fn each_reply_of_the_store_has_its_line(rt: HostRuntime) -> Result<(), Fail> {
    let alloc = rt.alloc();
    let files = three_files(alloc)?;
    let holdings = Holdings {
        files: 1,
        segments: 3,
        bytes: 23_740,
        used: 2,
        free: 6,
    };
    let rows: [(Reply<'_>, &[u8]); 6] = [
        (Reply::Deleted { sequence: 1_026 }, b"deleted 1026\n"),
        (Reply::Listed { files: &files }, LISTED),
        (
            Reply::Stat { holdings },
            b"stat files 1 segments 3 bytes 23740 used 2 free 6\n",
        ),
        (Reply::Opened { files: 512 }, b"opened 512\n"),
        (
            refused(Refusal::WrongPart {
                part: PartKind::Finished,
            }),
            b"refused 8 wrongpart finished\n",
        ),
        (
            refused(Refusal::Stopped { at: 0 }),
            b"refused 12 stopped 0\n",
        ),
    ];
    for (reply, line) in &rows[..] {
        assert!(rt; is_printed(alloc, reply, line)?);
    }
    Ok(())
}

#[test]
fn a_line_of_names_is_read(rt: HostRuntime) -> Result<(), Fail> {
    let rows: [(&[u8], &[u8]); 4] = [
        (b"delete a-1", b"a-1"),
        (b"delete 7", b"7"),
        (b"delete 07", b"07"),
        (b"delete delete", b"delete"),
    ];
    for (line, name) in rows {
        match read_line(line) {
            Some(Line::Delete(read)) => assert!(rt; read == name),
            _ => return Err("the line is no delete".into()),
        }
    }
    assert!(rt; matches!(read_line(b"list"), Some(Line::List)));
    Ok(())
}

#[test]
fn a_line_with_other_words_is_none(rt: HostRuntime) -> Result<(), Fail> {
    let rows: [&[u8]; 10] = [
        b"delete",
        b"delete ",
        b"delete  a",
        b"delete a ",
        b"delete a b",
        b"delete 7 a",
        b" list",
        b"list ",
        b"list 7",
        b"lists",
    ];
    for line in rows {
        assert!(rt; read_line(line).is_none());
    }
    Ok(())
}

/// Whether a reply is printed as this line, or these lines.
fn is_printed(alloc: Global, reply: &Reply<'_>, line: &[u8]) -> Result<bool, Fail> {
    let printed = print_reply(alloc, reply)?;
    Ok(printed.as_slice() == line)
}

fn turn<'a>(actor: Actor, turned: Turned) -> Reply<'a> {
    Reply::Turn { actor, turned }
}

fn refused<'a>(refusal: Refusal) -> Reply<'a> {
    Reply::Refused { refusal }
}
