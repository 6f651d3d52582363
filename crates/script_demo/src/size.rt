// How large a demonstration is.
ghost use Rattle.std.specs.Prelude.{◌≡◌};
ghost use Rattle.meaning_words.specs.Words.{demo_size};

const MOST_DIGITS: usize = 6;

const MOST_ORDERS: u32 = 100_000;

/// How many orders a word asks for: one to six digits, from 1 to 100,000.
pub fn demo_size(word: &str) -> Option<u32>
    ensures { result ≡ demo_size word.now }
{
    let [first, ..] = word.as_bytes() else {
        return None;
    };
    // A sign is no digit, though a number may have one.
    if *first == b'+' || word.len() > MOST_DIGITS {
        return None;
    }
    let Ok(orders) = word.parse::<u32>() else {
        return None;
    };
    if orders == 0 || orders > MOST_ORDERS {
        return None;
    }
    Some(orders)
}
