// Tags and text.
ghost use Rattle.std.specs.Prelude.{◌≡◌, ◌++◌, ℕ, [], ◌∷◌, codes, map, OnOk};
ghost use Rattle.std.specs.List.{flat_map};
ghost use Rattle.mesh_draw.specs.Tree.{attribute_of, attribute_text, escaped, start_tag, end_tag, empty_tag, text_of};

use std::alloc::AllocError;

/// An attribute of an element: its name, and its value, in which any byte may stand.
#[derive(Clone, Copy)]
pub struct Attribute<'a> {
    pub name: &'a str,
    pub value: &'a [u8],
}

// A byte as it stands in text and in values.
fn put_byte(out: &mut Vec<u8>, byte: u8) -> Result<(), AllocError>
    ensures { OnOk result (out.new.items ≡ out.old.items ++ escaped byte) }
{
    match byte {
        b'&' => out.extend_from_slice(b"&amp;"),
        b'<' => out.extend_from_slice(b"&lt;"),
        b'>' => out.extend_from_slice(b"&gt;"),
        b'"' => out.extend_from_slice(b"&quot;"),
        _ => out.extend_from_slice(&[byte]),
    }
}

// Bytes as they stand in text and in values.
fn put_escaped(out: &mut Vec<u8>, bytes: &[u8]) -> Result<(), AllocError>
    ensures { OnOk result (out.new.items ≡ out.old.items ++ flat_map escaped bytes.now) }
{
    for byte in bytes {
        put_byte(out, *byte)?;
    }
    Ok(())
}

// An attribute behind a space.
fn put_attribute(out: &mut Vec<u8>, attribute: Attribute<'_>) -> Result<(), AllocError>
    ensures { OnOk result (out.new.items ≡ out.old.items ++ attribute_text (attribute_of attribute.entry)) }
{
    out.extend_from_slice(b" ")?;
    out.extend_from_slice(attribute.name.as_bytes())?;
    out.extend_from_slice(b"=\"")?;
    put_escaped(out, attribute.value)?;
    out.extend_from_slice(b"\"")
}

// The name of an element, and its attributes.
fn put_head(out: &mut Vec<u8>, name: &str, attributes: &[Attribute<'_>]) -> Result<(), AllocError>
    ensures { OnOk result (out.new.items
        ≡ out.old.items ++ (codes "<" ++ name.now ++ flat_map attribute_text (map attribute_of attributes.now))) }
{
    out.extend_from_slice(b"<")?;
    out.extend_from_slice(name.as_bytes())?;
    for attribute in attributes {
        put_attribute(out, *attribute)?;
    }
    Ok(())
}

/// Appends the start tag of an element of that name. It fails only for want of memory.
pub fn put_start(
    out: &mut Vec<u8>,
    name: &str,
    attributes: &[Attribute<'_>],
) -> Result<(), AllocError>
    ensures { OnOk result (out.new.items ≡ out.old.items ++ start_tag name.now (map attribute_of attributes.now)) }
{
    put_head(out, name, attributes)?;
    out.extend_from_slice(b">")
}

/// Appends the end tag of an element of that name, and LF. It fails only for want of memory.
pub fn put_end(out: &mut Vec<u8>, name: &str) -> Result<(), AllocError>
    ensures { OnOk result (out.new.items ≡ out.old.items ++ end_tag name.now) }
{
    out.extend_from_slice(b"</")?;
    out.extend_from_slice(name.as_bytes())?;
    out.extend_from_slice(b">\n")
}

/// Appends an element of that name that holds nothing, and LF. It fails only for want of memory.
pub fn put_empty(
    out: &mut Vec<u8>,
    name: &str,
    attributes: &[Attribute<'_>],
) -> Result<(), AllocError>
    ensures { OnOk result (out.new.items ≡ out.old.items ++ empty_tag name.now (map attribute_of attributes.now)) }
{
    put_head(out, name, attributes)?;
    out.extend_from_slice(b"/>\n")
}

/// Appends text that an element holds. It fails only for want of memory.
pub fn put_text(out: &mut Vec<u8>, text: &[u8]) -> Result<(), AllocError>
    ensures { OnOk result (out.new.items ≡ out.old.items ++ text_of text.now) }
{
    put_escaped(out, text)
}
