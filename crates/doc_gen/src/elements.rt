//! Elements of bodies, line by line. What is written here has no character that would need an escape.

ghost use Rattle.std.specs.Prelude.{◌≡◌, ◌++◌, codes, OnOk};
ghost use Rattle.doc_gen.specs.Short as short_spec;

use dita_doc::List;
use std::alloc::AllocError;

// Begins an element without a class.
#[tactic(auto, unfolding(crate::specs::Short::begun))]
pub(crate) fn open_plain(out: &mut List<u8>, name: &str) -> Result<(), AllocError>
    ensures { OnOk result (out.new ≡ out.old ++ short_spec.begun name.now) }
{
    out.append(b"(")?;
    out.append(name.as_bytes())?;
    out.append(b"\n")
}

// Begins an element of a base type of maps.
pub(crate) fn open_map(out: &mut List<u8>, name: &str) -> Result<(), AllocError>
    ensures { OnOk result (out.new ≡ out.old ++ short_spec.begun name.now
        ++ short_spec.attribute_text (codes "class", codes "- map/" ++ name.now ++ codes " ")) }
{
    open_plain(out, name)?;
    append_class(out, "- map/", name)
}

// Begins an element of a base type of topics.
pub(crate) fn open_topic(out: &mut List<u8>, name: &str) -> Result<(), AllocError>
    ensures { OnOk result (out.new ≡ out.old ++ short_spec.begun name.now
        ++ short_spec.attribute_text (codes "class", codes "- topic/" ++ name.now ++ codes " ")) }
{
    open_plain(out, name)?;
    append_class(out, "- topic/", name)
}

// Begins an element of a type of a domain, which specializes a base type.
pub(crate) fn open_domain(
    out: &mut List<u8>,
    base: &str,
    domain: &str,
    name: &str,
) -> Result<(), AllocError>
    ensures { OnOk result (out.new ≡ out.old ++ short_spec.begun name.now
        ++ short_spec.attribute_text (
          codes "class",
          codes "+ " ++ base.now ++ codes " " ++ domain.now ++ codes "/" ++ name.now ++ codes " ",
        )) }
{
    open_plain(out, name)?;
    append_domain_class(out, base, domain, name)
}

// The class of an element of a base type, which starts so.
#[tactic(auto, unfolding(crate::specs::Short::attribute_text))]
fn append_class(out: &mut List<u8>, start: &str, name: &str) -> Result<(), AllocError>
    ensures { OnOk result (out.new ≡ out.old
        ++ short_spec.attribute_text (codes "class", start.now ++ name.now ++ codes " ")) }
{
    out.append(b"Aclass ")?;
    out.append(start.as_bytes())?;
    out.append(name.as_bytes())?;
    out.append(b" \n")
}

#[tactic(auto, unfolding(crate::specs::Short::attribute_text))]
fn append_domain_class(
    out: &mut List<u8>,
    base: &str,
    domain: &str,
    name: &str,
) -> Result<(), AllocError>
    ensures { OnOk result (out.new ≡ out.old ++ short_spec.attribute_text (
      codes "class",
      codes "+ " ++ base.now ++ codes " " ++ domain.now ++ codes "/" ++ name.now ++ codes " ",
    )) }
{
    out.append(b"Aclass + ")?;
    out.append(base.as_bytes())?;
    out.append(b" ")?;
    out.append(domain.as_bytes())?;
    out.append(b"/")?;
    out.append(name.as_bytes())?;
    out.append(b" \n")
}

// An attribute of the element that was begun last.
#[tactic(auto, unfolding(crate::specs::Short::attribute_text))]
pub(crate) fn append_attribute(
    out: &mut List<u8>,
    name: &str,
    value: &str,
) -> Result<(), AllocError>
    ensures { OnOk result
        (out.new ≡ out.old ++ short_spec.attribute_text (name.now, value.now)) }
{
    out.append(b"A")?;
    out.append(name.as_bytes())?;
    out.append(b" ")?;
    out.append(value.as_bytes())?;
    out.append(b"\n")
}

#[tactic(auto, unfolding(crate::specs::Short::text))]
pub(crate) fn append_text(out: &mut List<u8>, words: &str) -> Result<(), AllocError>
    ensures { OnOk result (out.new ≡ out.old ++ short_spec.text words.now) }
{
    out.append(b"-")?;
    out.append(words.as_bytes())?;
    out.append(b"\n")
}

// Ends an element.
#[tactic(auto, unfolding(crate::specs::Short::ended))]
pub(crate) fn close(out: &mut List<u8>, name: &str) -> Result<(), AllocError>
    ensures { OnOk result (out.new ≡ out.old ++ short_spec.ended name.now) }
{
    out.append(b")")?;
    out.append(name.as_bytes())?;
    out.append(b"\n")
}
