// What the front of a plan or a net says: its first 112 bytes are laid out alike.
ghost use Rattle.std.specs.Prelude.{◌≡◌, ◌≤◌, ◌<◌, length};
ghost use Rattle.protocol.specs.Net.{most_groups, most_stations};
ghost use Rattle.layout.specs.Layout as front;
ghost use Rattle.layout.specs.Layout.{plan_length};

use crate::offset;

// Bytes that are long enough for one.
#[derive(Clone, Copy)]
pub struct Front<'a> {
    pub bytes: &'a [u8],
    ghost long: { plan_length ≤ length bytes.now },
}

impl Front<'_> {
    // How many stations there are.
    pub fn stations(&self) -> u8
        ensures { result ≡ front.stations self.now.bytes.now }
    {
        self.bytes[5]
    }

    // How many groups.
    pub fn groups(&self) -> u8
        ensures { result ≡ front.groups self.now.bytes.now }
    {
        self.bytes[6]
    }

    // How many bytes the name of group g has.
    pub fn name_length(&self, g: usize) -> u8
        requires { g < most_groups }
        ensures { result ≡ front.name_length self.now.bytes.now g }
    {
        self.bytes[offset::group_at(g)]
    }

    // The root of group g.
    pub fn root(&self, g: usize) -> u8
        requires { g < most_groups }
        ensures { result ≡ front.root self.now.bytes.now g }
    {
        self.bytes[offset::group_at(g) + offset::NAME_SIZE]
    }

    // The neighbours of station p.
    pub fn neighbours(&self, p: usize) -> u16
        requires { p < most_stations }
        ensures { result ≡ front.neighbours self.now.bytes.now p }
    {
        bits::number::get(self.bytes, offset::mask_at(p))
    }
}
