// What a sweep is given, and what does not change during it.
ghost use Rattle.std.specs.Prelude.{◌≡◌};
ghost use Rattle.rules.specs.Options.{option_of};
ghost use Rattle.image.specs.Walk.{tree_of};

use trie::Tables;

// A book and an image, the book's tables with the number of their nodes, the length of the shortest token, and the root's children by
// their labels.
#[derive(Drop)]
pub struct Sweep<'a, 't> {
    pub book: &'a [u8],
    pub image: &'a [u8],
    pub tables: Tables<'t>,
    pub count: usize,
    pub shortest: usize,
    pub kids: [u16; 256],
}

impl Sweep<'_, '_> {
    // The child of a node with a label.
    pub fn child(&self, node: usize, byte: u8) -> Option<usize>
        ensures { option_of result ≡ (tree_of self.now).child node byte }
    {
        trie::chain::child(&self.tables, self.count, node, byte)
    }
}
