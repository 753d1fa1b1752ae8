// The six tables as they are lent, together: what reads them takes `Tables`, and what writes them `TablesMut`.
ghost use Rattle.std.specs.Prelude.{◌≡◌};
ghost use Rattle.tables.specs.Tables.{shortest_table};
ghost use Rattle.trie.specs.Lent.{tables_of, written_of};

// An entry a node: its parent, its label, its token, its first child, its next sibling and its shift.
#[derive(Clone, Copy)]
pub struct Tables<'a> {
    pub parent: &'a [u16],
    pub label: &'a [u8],
    pub token: &'a [u16],
    pub first: &'a [u16],
    pub next: &'a [u16],
    pub shift: &'a [u16],
}

// The same, to be written.
#[derive(Drop)]
pub struct TablesMut<'a> {
    pub parent: &'a mut [u16],
    pub label: &'a mut [u8],
    pub token: &'a mut [u16],
    pub first: &'a mut [u16],
    pub next: &'a mut [u16],
    pub shift: &'a mut [u16],
}

impl Tables<'_> {
    // The length of the shortest table.
    pub fn shortest(&self) -> usize
        ensures { result ≡ shortest_table (tables_of self.now) }
    {
        self.parent
            .len()
            .min(self.label.len())
            .min(self.token.len())
            .min(self.first.len())
            .min(self.next.len())
            .min(self.shift.len())
    }
}

impl TablesMut<'_> {
    // What has been written so far, to be read.
    pub fn shared(&self) -> Tables<'_>
        ensures { tables_of result ≡ written_of self.now }
    {
        Tables {
            parent: self.parent,
            label: self.label,
            token: self.token,
            first: self.first,
            next: self.next,
            shift: self.shift,
        }
    }
}
