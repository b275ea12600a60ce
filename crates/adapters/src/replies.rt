//! Texts of endings and replies whose numbers no disk here has: docs/FORMAT.md, 'Texts' and 'Refusals'.
use crate::listed::{LISTED, three_files};
use dd_io::MemSink;
use refusals::Refusal;
use reply_text::{Ending, deleted_line, formatted_line, listing_text, status_of, write_fault};
use std::test::Fail;

#[test]
fn an_ending_has_its_line_and_its_status(rt: HostRuntime) -> Result<(), Fail> {
    let alloc = rt.alloc();
    let wrong_size = Refusal::WrongSize {
        want: 2_622_976,
        got: 18_446_744_073_709_551_615,
    };
    let full = Refusal::Full { free: 1_234 };
    let rows: [(Ending, &[u8], u8); 5] = [
        (Ending::Refused(Refusal::Memory), b"fault 1 memory\n", 1),
        (Ending::Refused(full), b"fault 6 full 1234\n", 3),
        (
            Ending::Refused(wrong_size),
            b"fault 21 wrongsize 2622976 18446744073709551615\n",
            3,
        ),
        (Ending::Line { number: 3 }, b"fault line 3\n", 2),
        (Ending::Script, b"fault script\n", 2),
    ];
    for (ending, line, status) in rows {
        let mut notes = MemSink::new(alloc, Vec::new(alloc));
        assert!(rt; write_fault(&mut notes, &ending).is_ok());
        assert!(rt; notes.bytes() == line);
        assert!(rt; status_of(&ending) == status);
    }
    Ok(())
}

#[test]
fn a_line_that_is_cut_off_is_a_first_part(rt: HostRuntime) -> Result<(), Fail> {
    let alloc = rt.alloc();
    let ending = Ending::Refused(Refusal::Full { free: 1_234 });
    let mut notes = MemSink::new(alloc, vec![in alloc; 2u64]?);
    assert!(rt; write_fault(&mut notes, &ending).is_err());
    assert!(rt; notes.bytes() == b"fault 6 full 12".as_slice());
    Ok(())
}

#[test]
fn the_largest_format_has_its_reply(rt: HostRuntime) -> Result<(), Fail> {
    let line = formatted_line(rt.alloc(), 65_536)?;
    assert!(rt; line.as_slice() == b"formatted 65536\n".as_slice());
    Ok(())
}

#[test]
fn a_name_that_is_deleted_has_its_reply(rt: HostRuntime) -> Result<(), Fail> {
    let line = deleted_line(rt.alloc(), b"a-1")?;
    assert!(rt; line.as_slice() == b"deleted a-1\n".as_slice());
    Ok(())
}

#[test]
fn names_are_listed_in_the_order_of_their_bytes(rt: HostRuntime) -> Result<(), Fail> {
    let alloc = rt.alloc();
    let files = three_files(alloc)?;
    let text = listing_text(alloc, &files)?;
    assert!(rt; text.as_slice() == LISTED);
    Ok(())
}
