// The form and the ranges that a layout of the journal sets for ops and snapshots.
ghost use Rattle.std.specs.Prelude.{◌≡◌};
ghost use Rattle.state_codec.specs.Layout.{layout_1, layout_2, layout_3, layout_of, written_layout, IsLayout};

use profile::Profile;

/// What ops and snapshots of a layout can hold.
#[derive(Clone, Copy)]
pub(crate) struct Layout {
    /// The greatest number that spells the consume option.
    pub greatest_consume: u8,
    /// How many entries the queue has at most.
    pub queue_limit: u32,
    /// How many playlists there are at most.
    pub list_limit: u32,
    /// Whose states it has. Under the wide profile rows have stamps and all texts of all tags, and a checksum stands at the end.
    pub profile: Profile,
}

fn layout_1() -> Layout
    ensures value { result ≡ layout_1 }
    ensures form { IsLayout result }
{
    Layout {
        greatest_consume: 1,
        queue_limit: 16_384,
        list_limit: 256,
        profile: Profile::Named,
    }
}

fn layout_2() -> Layout
    ensures value { result ≡ layout_2 }
    ensures form { IsLayout result }
{
    Layout {
        greatest_consume: 2,
        queue_limit: 65_536,
        list_limit: 1_024,
        profile: Profile::Named,
    }
}

fn layout_3() -> Layout
    ensures value { result ≡ layout_3 }
    ensures form { IsLayout result }
{
    Layout {
        profile: Profile::Wide,
        ..layout_2()
    }
}

/// The layout of a number. A journal has layout 1, 2 or 3; of any other number it is layout 2.
pub(crate) fn layout_of(number: u32) -> Layout
    ensures value { result ≡ layout_of number }
    ensures form { IsLayout result }
{
    match number {
        1 => layout_1(),
        3 => layout_3(),
        _ => layout_2(),
    }
}

/// The number of the layout that is written under a profile: 2, or 3.
pub fn layout_number(profile: Profile) -> u32
    ensures { result ≡ written_layout profile }
{
    match profile {
        Profile::Named => 2,
        Profile::Wide => 3,
    }
}
