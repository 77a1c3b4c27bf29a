// Answers a vector file on standard input, one line a case, as docs/VECTORS.md says, by the libraries' public functions.
// Of a longer input the first 1,048,576 octets are read, and the case that they cut short and all after it are not answered.
// Where the input cannot be read nothing is answered, and where a line cannot be written nothing after it is; both are said on standard error.
#![tactic(auto)]

mod asked;
mod fields;
mod print;

use remarks::Told;

// Answers one case: an octet that says what is asked, and its body.
fn answer(rt: &HostRuntime, case: &mut [u8]) -> Result<(), Told> {
    if case.len() < 1 {
        return print::short(rt);
    }
    let kind = case[0];
    let body = &mut case[1..];
    match kind {
        0x01 => asked::reading(rt, body),
        0x02 => asked::building(rt, body),
        0x03 => asked::timers(rt, body),
        0x04 => asked::choice(rt, body),
        0x05 => asked::headroom(rt, body),
        0x06 => asked::settings(rt, body),
        0x08 => asked::sender(rt, body),
        _ => print::short(rt),
    }
}

// Answers the cases of a file in order, up to one that is cut short or a write that fails. (By a place: each case has a length of its own.)
fn answer_all(rt: &HostRuntime, file: &mut [u8]) -> Result<(), Told> {
    let mut at: usize = 0;
    while file.len() - at >= 2 {
        let size = usize::from(octets::word_at(file, at));
        let start = at + 2;
        if file.len() - start < size {
            break;
        }
        let end = start + size;
        answer(rt, &mut file[start..end])?;
        at = end;
    }
    Ok(())
}

fn buffer() -> [u8; 1_048_576] {
    [0u8; 1_048_576]
}

fn main(rt: HostRuntime) {
    let mut file = buffer();
    if let Ok(n) = console::input::read_whole(&rt, &mut rt.stdin(), b"vectors", &mut file) {
        let _ = answer_all(&rt, &mut file[..n]);
    }
}
