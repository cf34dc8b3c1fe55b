//! Facets.

ghost use Rattle.std.specs.Prelude.{◌≡◌, ◌↔◌, IfOk, IsTrue, string_bytes};
ghost use Rattle.tantivy_schema.specs.Facet.{Descends, printed};

use std::alloc::{AllocError, Global};
use tantivy_schema::schema::Facet;

/// A facet is a prefix of another by its steps: the other has these steps, and more after them.
pub fn prefixes_go_by_steps(facet: &Facet, other: &Facet) -> bool
    ensures { IsTrue result ↔ Descends facet.now other.now }
{
    if other.is_root() {
        return false;
    }
    facet.is_prefix_of(other)
}

/// A facet prints as the text that names it: a slash before each step, and a backslash before each slash and each backslash of
/// a step. The law `printed_facets_are_read` says that this text is read as the facet.
pub fn facets_are_printed(facet: &Facet, alloc: Global) -> Result<String, AllocError>
    ensures { IfOk result (λ text. string_bytes text ≡ printed facet.now) }
{
    if facet.encoded_str() == "\\" {
        return String::from_str(alloc, "/\\\\");
    }
    facet.to_path_string()
}
