// What a call is lent: the seven buffers of a store as one value, `Store` where they may change and `View` where they are only read.
#![tactic(auto)]

ghost use Rattle.std.specs.Prelude.{◌≡◌, length};
ghost use Rattle.rules.specs.Head.{head_bytes, decode_head};
ghost use Rattle.format.specs.Records.{head_of, HeadFits};
ghost use Rattle.lent.specs.Lent.{store_of, seen};

use format::head::Head;

// A store whose buffers may be changed; `store_of` of specs/ is the store of the rules that it says. Whoever is lent it leaves each buffer in its place
// (`SamePlaces`), so that the lender finds in his own buffers what was written.
#[derive(Drop)]
pub struct Store<'a> {
    pub image: &'a mut [u8],
    pub head: &'a mut [u8],
    pub cards: &'a mut [u8],
    pub extents: &'a mut [u8],
    pub groups: &'a mut [u8],
    pub used: &'a mut [u8],
    pub retired: &'a mut [u8],
}

impl Store<'_> {
    // What its head says.
    pub fn decode_head(&self) -> Head
        requires { length self.now.head.now ≡ head_bytes }
        ensures { (head_of result ≡ decode_head self.now.head.now) × HeadFits result }
    {
        format::head::decode_head(self.head)
    }

    // The same buffers, to be read.
    pub fn view(&self) -> View<'_>
        ensures { seen result ≡ store_of self.now }
    {
        View {
            image: self.image,
            head: self.head,
            cards: self.cards,
            extents: self.extents,
            groups: self.groups,
            used: self.used,
            retired: self.retired,
        }
    }
}

// A store that is only read: `seen` is the store of the rules that it says.
#[derive(Clone, Copy)]
pub struct View<'a> {
    pub image: &'a [u8],
    pub head: &'a [u8],
    pub cards: &'a [u8],
    pub extents: &'a [u8],
    pub groups: &'a [u8],
    pub used: &'a [u8],
    pub retired: &'a [u8],
}
