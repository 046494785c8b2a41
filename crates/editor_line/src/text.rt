// Code lines and previews as text.
ghost use Rattle.std.specs.Prelude.{◌≡◌, IfOk, string_bytes};
ghost use Rattle.editor_line.specs.Texts.{codes_line, preview_line};

use lines::{Codes, Preview};
use std::alloc::{AllocError, Global};

pub fn codes_text(heap: Global, codes: &[u8]) -> Result<String, AllocError>
    ensures { IfOk result (λ text. string_bytes text ≡ codes_line codes.now) }
{
    format!(in heap; "codes{}", Codes(codes))
}

pub fn preview_text(heap: Global, preview: &[u16]) -> Result<String, AllocError>
    ensures { IfOk result (λ text. string_bytes text ≡ preview_line preview.now) }
{
    format!(in heap; "preview{}", Preview(preview))
}
