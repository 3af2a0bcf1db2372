ghost use Rattle.std.specs.Prelude.{◌≡◌, ◌+◌, ◌*◌, ◌≤◌, ◌++◌, length, drop};
ghost use Rattle.std.proofs.Math.Seq.{paste};
ghost use Rattle.page_memory.specs.Pages.{page_bytes};

/// The bytes of a page, and of a template.
pub const PAGE: usize = 256;

/// Copies a page to the front of `into`.
pub(crate) fn read_page(bytes: &[u8], page: usize, into: &mut [u8])
    requires page_in_bounds { page * 256 + 256 ≤ length bytes.now }
    requires in_bounds { 256 ≤ length into.old }
    ensures { into.new ≡ page_bytes bytes.now page ++ drop 256 into.old }
{
    into[0..PAGE].copy_from_slice(&bytes[page * PAGE..page * PAGE + PAGE]);
}

/// Writes a template over a page.
pub(crate) fn write_page(bytes: &mut [u8], page: usize, template: &[u8])
    requires page_in_bounds { page * 256 + 256 ≤ length bytes.old }
    requires template_len { length template.now ≡ 256 }
    ensures { bytes.new ≡ paste bytes.old (page * 256) template.now 256 }
{
    bytes[page * PAGE..page * PAGE + PAGE].copy_from_slice(template);
}
