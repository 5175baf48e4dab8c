//! Laws of the definitions that the contracts cite.

ghost use Rattle.player_core.specs.BadSongs.{BadSongsEnd};
ghost use Rattle.player_core.specs.Round.{ARoundIsTheRandomOrder};

/// From `play` without a current song, in random mode with the other options off, the songs that play are all entries, in random
/// order by the words of the key and the new order number; and then the player stops. Each song ends by the report of its end.
pub fn a_round_is_the_random_order()
    ensures { ARoundIsTheRandomOrder }
{}

/// Without random mode, as many songs in a row that can't be read as the queue has entries stop the player, by the manners of MPD too.
pub fn bad_songs_end()
    ensures { BadSongsEnd }
{}
