//! A catalogue as C holds it.

ghost use Rattle.std.specs.Prelude.{◌≡◌, ◌≤◌, length};
ghost use Rattle.pokit_c.specs.Prelude.{CatalogView, IsOpened, expression_limit, program_of, tree_of};

use plural_rule::Instruction;

/// A catalogue that [`pokit_catalog_open`](crate::opening::pokit_catalog_open) has opened. It is
/// never changed afterwards, and neither are its bytes, which outlive it.
#[repr(C)]
#[derive(Drop)]
pub struct PokitCatalog<'a> {
    /// The bytes of the MO file.
    pub bytes: &'a [u8],
    /// The number of plural forms that the header entry names.
    pub nplurals: u64,
    /// How many instructions the program of the plural expression has. The functions of
    /// include/pokit.h take a catalogue with 0 instructions as one that isn't open.
    pub instruction_count: u32,
    /// The program of the plural expression, and after it instructions that aren't read.
    pub instructions: [Instruction; 4096],
}

impl PokitCatalog<'_> {
    /// The program of the plural expression, as plural_rule's `evaluate` takes it.
    #[inline(always)]
    pub(crate) fn program(&self) -> &[Instruction]
        requires { (view : CatalogView) × IsOpened self.now view }
        ensures program { result.now ≡ program_of 0 (tree_of result.now) }
        ensures limit { length result.now ≤ expression_limit }
        ensures tree { (view : CatalogView) → IsOpened self.now view → tree_of result.now ≡ view.rule.tree }
    {
        &self.instructions[..self.instruction_count as usize]
    }
}
