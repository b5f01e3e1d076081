// An image that a loss of power may leave, with chosen bytes where nothing is settled.
ghost use Rattle.std.specs.Prelude.{◌<◌, [], ◌∷◌, length};
ghost use Rattle.pcm_media.specs.Choice.{IsLeftBy, IsChosen};
ghost use Rattle.pcm_media.specs.Calls.{ranges_in};

use crate::call::Place;

// Puts the chosen bytes into a range, as far as it lies in the image.
fn choose_range(image: &mut [u8], at: u64, len: u64, choice: &[u8])
    requires { 0 < length choice.now }
    ensures { IsChosen choice.now ((at, len) ∷ []) image.old image.new }
{
    let end = at.saturating_add(len).min(image.len() as u64);
    for i in at as usize..end as usize {
        image[i] = choice[i % choice.len()];
    }
}

/// Puts the chosen bytes at each of these places, which are those that are unsettled. An empty choice keeps what is there.
pub fn choose(image: &mut [u8], places: &[Place], choice: &[u8])
    ensures { IsLeftBy choice.now (record { bytes = image.old; unsettled = ranges_in places.now }) image.new }
{
    if choice.is_empty() {
        return;
    }
    choose_all(image, places, choice);
}

fn choose_all(image: &mut [u8], places: &[Place], choice: &[u8])
    requires { 0 < length choice.now }
    ensures { IsChosen choice.now (ranges_in places.now) image.old image.new }
{
    for place in places {
        choose_range(image, place.at, place.len, choice);
    }
}
