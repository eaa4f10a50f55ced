//! Where the outlet keeps a page.

ghost use Rattle.std.specs.Prelude.{◌≡◌, ◌≤◌, ◌++◌, IfOk, codes};
ghost use Rattle.std.specs.Fmt.{decimal};
ghost use Rattle.build_plan.specs.PageNames as page_names_spec;
ghost use Rattle.script_text.specs.Script as script_spec;

use dita_doc::{Name, Text};
use std::alloc::{AllocError, Global};

/// The name of a page under the folder of its build's request: `b7/index.html`, if the request's
/// number is 7.
pub fn page_path(alloc: Global, number: u32, page: &Name) -> Result<Name, AllocError>
    requires number { number ≤ script_spec.request_limit }
    requires page { page_names_spec.IsPageName page.now }
    ensures { IfOk result (λ name. name ≡ codes "b" ++ decimal number ++ codes "/" ++ page.now) }
{
    let text = path_text(alloc, number, page.as_str())?;
    Name::new(alloc, text)
}

// The text of that name.
fn path_text(alloc: Global, number: u32, page: &str) -> Result<Text, AllocError>
    ensures { IfOk result (λ text. text ≡ codes "b" ++ decimal number ++ codes "/" ++ page.now) }
{
    let mut text = Text::from_str(alloc, format!(in alloc; "b{number}/")?.as_str())?;
    text.append(page)?;
    Ok(text)
}
