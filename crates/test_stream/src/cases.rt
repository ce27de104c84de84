// The cases of standard input, whose number stands before them in two bytes.
use crate::commands::{End, put, read_exact};

// Tries each of them, below a line of titles, and tells how many there were. A case that isn't there ends them.
pub fn try_cases<R: Print + Input, F: FnMut() -> Result<(), End>>(rt: &R, titles: &[u8], one: F)
    requires { F.IsAlwaysCallable one }
{
    if up_to_last(rt, titles, one).is_err() {
        put(rt, b"the file of cases is cut short\n");
    }
}

fn up_to_last<R: Print + Input, F: FnMut() -> Result<(), End>>(
    rt: &R,
    titles: &[u8],
    mut one: F,
) -> Result<(), End>
    requires { F.IsAlwaysCallable one }
{
    let mut head = [0; 2];
    read_exact(rt, &mut head)?;
    put(rt, titles);
    let count = u16::from_be_bytes(head);
    for _ in 0..count {
        one()?;
    }
    let _ = println!(rt; "{count} cases");
    Ok(())
}
