//! Words of refusals.
use ld_lines::refusal_word;
use std::test::Fail;

#[test]
fn words_of_numbers(rt: HostRuntime) -> Result<(), Fail> {
    assert_eq!(rt; refusal_word(1), "bad-line");
    assert_eq!(rt; refusal_word(22), "not-allowed");
    assert_eq!(rt; refusal_word(99), "no-memory");
    Ok(())
}
