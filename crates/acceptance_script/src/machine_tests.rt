//! Texts and lists of documents give back what they were made of.

use machine::{Sequence, Text, laws};
use std::alloc::{AllocError, Global};
use std::test::Fail;

// The text, lent and given back, is the one that it was made of.
fn text_stays(alloc: Global, text: &str) -> Result<bool, AllocError> {
    let made = Text::from_str(alloc, text)?;
    let lent = made.as_str() == text;
    Ok(lent && made.into_string().as_str() == text)
}

// The members, lent and given back, are those that the list was made of.
fn members_stay(alloc: Global, members: &[u32]) -> Result<bool, AllocError> {
    let made = Sequence::new(members.to_vec(alloc)?);
    let lent = made.as_slice() == members;
    Ok(lent && made.into_vec().as_slice() == members)
}

#[test]
fn a_text_is_given_back(rt: HostRuntime) -> Result<(), Fail> {
    assert!(rt; text_stays(rt.alloc(), "h\u{E9}\n")?);
    assert!(rt; text_stays(rt.alloc(), "")?);
    Ok(())
}

#[test]
fn members_are_given_back(rt: HostRuntime) -> Result<(), Fail> {
    assert!(rt; members_stay(rt.alloc(), &[3, 1, 2])?);
    assert!(rt; members_stay(rt.alloc(), &[])?);
    Ok(())
}

#[test]
fn states_laws_of_lawful_transcripts() {
    laws::calls_are_numbered();
    laws::plain_transcript_is_lawful();
    laws::only_plain_transcript_is_lawful();
    laws::written_history_is_lawful();
    laws::verdict_is_one();
}
