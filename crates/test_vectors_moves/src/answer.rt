// Lines of output.
use block::Refusal;
use decoder::numbers::{number_of, offset_of};
use machine::Head;

pub(crate) fn text(rt: &impl Print, s: &str) {
    let _ = rt.print(s);
}

pub(crate) fn number(rt: &impl Print, n: u64) {
    text(rt, " ");
    let _ = rt.print(n);
}

// The number and the offset of an opening's answer, 0 and 0 if it is accepted.
pub(crate) fn verdict(rt: &impl Print, opened: Result<Head, Refusal>) {
    match opened {
        Ok(_) => text(rt, " 0 0"),
        Err(why) => {
            number(rt, number_of(why));
            number(rt, offset_of(why));
        }
    }
}
