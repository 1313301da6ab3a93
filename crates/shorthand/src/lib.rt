// Texts written short, for tables of cases: a space stands for a tab, `/` for a line feed, `<N>` for the byte N and `{N:UNIT}` for a
// unit N times.
#![tactic(auto)]

ghost use Rattle.std.specs.Prelude.{◌≡◌, ◌++◌, map, IfOk, OnOk};
ghost use Rattle.shorthand.specs.Shorthand.{plain_of, Lacks};

use anyhow::Context;
use std::alloc::AllocError;

// The byte that a byte of a text stands for.
fn plain(byte: u8) -> u8
    ensures { result ≡ plain_of byte }
{
    match byte {
        b' ' => b'\t',
        b'/' => b'\n',
        _ => byte,
    }
}

// Adds the bytes that a text without `<` and `{` stands for.
fn add_plain(bytes: &mut Vec<u8>, text: &str) -> Result<(), AllocError>
    ensures { OnOk result (bytes.new.items ≡ bytes.old.items ++ map plain_of text.now) }
{
    bytes.extend(text.bytes().map(plain))
}

// Adds the bytes that a text without `{` stands for.
fn add_text(bytes: &mut Vec<u8>, text: &str) -> anyhow::Result<()>
    ensures { OnOk result (Lacks 60 text.now → bytes.new.items ≡ bytes.old.items ++ map plain_of text.now) }
{
    let Some((first, codes)) = text.split_once('<') else {
        add_plain(bytes, text)?;
        return Ok(());
    };
    add_plain(bytes, first)?;
    for piece in codes.split('<') {
        let (code, rest) = piece.split_once('>').context("no end of a byte")?;
        bytes.push(code.parse()?)?;
        add_plain(bytes, rest)?;
    }
    Ok(())
}

// The bytes that a text stands for: of one without `<` and `{`, what its bytes do.
pub fn bytes_of(rt: &HostRuntime, text: &str) -> anyhow::Result<Vec<u8>>
    ensures { IfOk result (λ v. Lacks 123 text.now → Lacks 60 text.now → v.items ≡ map plain_of text.now) }
{
    let mut bytes = Vec::new(rt.alloc());
    let Some((first, units)) = text.split_once('{') else {
        add_text(&mut bytes, text)?;
        return Ok(bytes);
    };
    add_text(&mut bytes, first)?;
    for piece in units.split('{') {
        let (count, rest) = piece.split_once(':').context("no unit")?;
        let (unit, rest) = rest.split_once('}').context("no end of a unit")?;
        for _ in 0..count.parse::<u32>()? {
            add_text(&mut bytes, unit)?;
        }
        add_text(&mut bytes, rest)?;
    }
    Ok(bytes)
}
