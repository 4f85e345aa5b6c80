// Sums and products that wrap (document 01, section 3), at both ends of 32 and 64 bits, and positions in nanodegrees.
use numbers::signed::{Signed, nanodegrees};
use std::io::Write;
use std::{fmt, io};

// A line for each pair, with what `answer` makes of it.
fn lines<W: Write, T: fmt::Display + Copy, F: Fn(T, T) -> T>(
    out: &mut W,
    name: &str,
    sign: char,
    pairs: &[(T, T)],
    answer: F,
) -> io::Result<()>
    requires { F.IsAlwaysCallable answer }
{
    for (a, b) in pairs {
        let result = answer(*a, *b);
        writeln!(out, "{name}: {a} {sign} {b} -> {result}")?;
    }
    Ok(())
}

fn sums<W: Write>(out: &mut W) -> io::Result<()> {
    lines(
        out,
        "sum of 64 bits",
        '+',
        &[
            (2, -5),
            (9223372036854775807, 1),
            (-9223372036854775808, -1),
            (-9223372036854775808, -9223372036854775808),
            (9223372036854775807, -9223372036854775808),
        ],
        i64::plus,
    )?;
    lines(
        out,
        "sum of 32 bits",
        '+',
        &[
            (2, -5),
            (2147483647, 1),
            (-2147483648, -1),
            (-2147483648, -2147483648),
            (2147483647, -2147483648),
        ],
        i32::plus,
    )
}

fn products<W: Write>(out: &mut W) -> io::Result<()> {
    lines(
        out,
        "product of 64 bits",
        '*',
        &[
            (-3, 7),
            (4294967296, 2147483647),
            (4294967296, 2147483648),
            (4294967296, 4294967296),
            (9223372036854775807, 9223372036854775807),
            (-9223372036854775808, -1),
        ],
        i64::times,
    )
}

// A granularity of 100, the default; a product that wraps, and a sum that does.
fn positions<W: Write>(out: &mut W) -> io::Result<()> {
    for (offset, granularity, raw) in [
        (0, 100, 515000000),
        (1000000000, 1000, -180000000),
        (1, 100, 9223372036854775807),
        (7, -2147483648, 8589934592),
        (9223372036854775807, 1, 1),
        (-9223372036854775808, 1, -1),
    ] {
        let position = nanodegrees(offset, granularity, raw);
        writeln!(
            out,
            "nanodegrees: {offset} + {granularity} * {raw} -> {position}"
        )?;
    }
    Ok(())
}

pub(crate) fn run<W: Write>(out: &mut W) -> io::Result<()> {
    sums(out)?;
    products(out)?;
    positions(out)
}
