ghost use Rattle.std.specs.Prelude.{◌≡◌, ◌++◌, ◌≤◌, length, OnOk, IfOk};
ghost use Rattle.std.specs.List.{prefix_len, take_while};
ghost use Rattle.markup.specs.Escapes.{escape_of, escaped, is_plain};
ghost use Rattle.markup.specs.inner.Plain.{behind_plain};

use trust_types::NoMemory;

/// Writes the bytes.
pub fn write(html: &mut Vec<u8>, bytes: &[u8]) -> Result<(), NoMemory>
    ensures { OnOk result (html.new.items ≡ html.old.items ++ bytes.now) }
{
    html.extend_from_slice(bytes)?;
    Ok(())
}

fn is_plain(byte: u8) -> bool
    ensures { result ≡ is_plain byte }
{
    byte != b'&' && byte != b'<' && byte != b'>' && byte != b'"'
}

/// How many bytes at the front are written as they are.
fn plain_len(text: &[u8]) -> usize
    ensures { result ≡ prefix_len is_plain text.now }
{
    text.iter().take_while(|byte| is_plain(**byte)).count()
}

/// Writes the front of the text up to the first byte that markup is made of, and gives the rest.
#[tactic(auto, using(crate::proofs::Fronts::fronts))]
pub fn write_plain<'a>(html: &mut Vec<u8>, text: &'a [u8]) -> Result<&'a [u8], NoMemory>
    ensures written { OnOk result (html.new.items ≡ html.old.items ++ take_while is_plain text.now) }
    ensures rest { IfOk result (λ rest. rest.now ≡ behind_plain text.now) }
    ensures shorter { IfOk result (λ rest. length rest.now ≤ length text.now) }
{
    let (plain, rest) = text.split_at(plain_len(text));
    write(html, plain)?;
    Ok(rest)
}

/// Writes one byte of a text, escaped where markup is made of it.
#[tactic(auto, unfolding(crate::specs::Escapes::escape_of))]
pub fn write_byte(html: &mut Vec<u8>, byte: u8) -> Result<(), NoMemory>
    ensures { OnOk result (html.new.items ≡ html.old.items ++ escape_of byte) }
{
    match byte {
        b'&' => write(html, b"&amp;"),
        b'<' => write(html, b"&lt;"),
        b'>' => write(html, b"&gt;"),
        b'"' => write(html, b"&quot;"),
        _ => write(html, &[byte]),
    }
}

/// Writes the text, escaped.
pub fn write_escaped(html: &mut Vec<u8>, text: &[u8]) -> Result<(), NoMemory>
    ensures { OnOk result (html.new.items ≡ html.old.items ++ escaped text.now) }
{
    let mut rest = write_plain(html, text)?;
    while !rest.is_empty() {
        write_byte(html, rest[0])?;
        rest = write_plain(html, &rest[1..])?;
    }
    Ok(())
}
