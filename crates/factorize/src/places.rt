// The numbers that groups have, and the group of each number.
ghost use Rattle.std.specs.Prelude.{◌≡◌, ◌<◌, ◌∷◌, ◌++◌, [], List, ℕ, true, not, map, filter, length, None, All, OnOk, IfOk, if◌then◌else◌};
ghost use Rattle.factorize.specs.Numbers.{first_row, row_holds_na, number_less, kept_numbers};
ghost use Rattle.factorize.specs.Numbers.{placed, places_of, recoded, number_in};

use crate::levels::KeyLevels;
use crate::order::{numbers_in_order, row_of};
use cell_core::{Gaps, Label, NoMemory, Places, TextDict};
use row_keys::Numbers;
use std::alloc::Global;

// Whether the key of a row holds an NA.
fn holds_na<R: KeyLevels>(rows: &R, levels: usize, row: usize) -> bool
    ensures { (texts : List (List ℕ)) → result ≡ row_holds_na texts (R.keys rows.now) levels row }
{
    for level in 0..levels {
        if rows.label(row, level) == Label::Na {
            return true;
        }
    }
    false
}

// Adds a number, where it stays.
fn push_if(kept: &mut Vec<usize>, number: usize, stays: bool) -> Result<(), NoMemory>
    ensures { OnOk result
        (kept.new.items ≡ kept.old.items ++ (if stays then number ∷ [] else [])) }
{
    if stays {
        kept.push(number)?;
    }
    Ok(())
}

// These numbers, without those whose key holds an NA.
fn without_na<R: KeyLevels>(
    alloc: Global,
    rows: &R,
    levels: usize,
    firsts: &[usize],
    numbers: &[usize],
) -> Result<Places, NoMemory>
    ensures { (texts : List (List ℕ)) → IfOk result (λ kept. kept ≡ filter
        (λ n. not (row_holds_na texts (R.keys rows.now) levels (first_row firsts.now n))) numbers.now) }
{
    let mut kept = Vec::with_capacity(alloc, numbers.len())?;
    for number in numbers {
        let stays = !holds_na(rows, levels, row_of(firsts, *number));
        push_if(&mut kept, *number, stays)?;
    }
    Ok(Places::from(kept))
}

// The numbers whose keys groups have, in the order of the groups.
pub(crate) fn numbers_kept<R: KeyLevels>(
    alloc: Global,
    dict: &TextDict,
    rows: &R,
    levels: usize,
    numbers: &Numbers,
    sorted: bool,
    dropna: bool,
) -> Result<Places, NoMemory>
    ensures { let firsts = numbers.now.firsts.items in let keys = R.keys rows.now in
        IfOk result (λ kept. kept ≡ kept_numbers sorted dropna (number_less dict.now keys levels firsts)
        (λ n. row_holds_na dict.now keys levels (first_row firsts n)) (length firsts)) }
{
    let firsts: &[usize] = &numbers.firsts;
    let ordered = numbers_in_order(alloc, dict, rows, levels, firsts, sorted)?;
    if !dropna {
        return Ok(ordered);
    }
    let kept = without_na(alloc, rows, levels, firsts, ordered.as_slice())?;
    Ok(kept)
}

// Notes the place of a number, where it has none.
fn place_first(places: &mut [Option<usize>], number: usize, place: usize)
    requires { number < length places.old }
    ensures { places.new ≡ placed places.old number place }
{
    if places[number].is_none() {
        places[number] = Some(place);
    }
}

// Notes the place of each number.
fn place_all(places: &mut [Option<usize>], kept: &[usize])
    requires below { All (λ number. number < length places.old) kept.now }
    requires none { All (λ place. place ≡ None) places.old }
    ensures { places.new ≡ places_of kept.now (length places.old) }
{
    for (place, number) in kept.iter().enumerate() {
        place_first(places, *number, place);
    }
}

// The place of each number below a count among those that are kept.
pub(crate) fn places_among(
    alloc: Global,
    kept: &[usize],
    count: usize,
) -> Result<Vec<Option<usize>>, NoMemory>
    requires { All (λ number. number < count) kept.now }
    ensures { IfOk result (λ places. places.items ≡ places_of kept.now count) }
{
    let mut places = vec![in alloc; None; count]?;
    place_all(&mut places, kept);
    Ok(places)
}

// The place of each row's number.
pub(crate) fn codes_by(
    alloc: Global,
    places: &[Option<usize>],
    codes: &[usize],
) -> Result<Gaps, NoMemory>
    requires { All (λ code. code < length places.now) codes.now }
    ensures { IfOk result (λ made. made ≡ recoded places.now codes.now) }
{
    let mut made = Vec::with_capacity(alloc, codes.len())?;
    for code in codes {
        made.push(places[*code])?;
    }
    Ok(Gaps::from(made))
}

// The place of each row's number in its stead; 0 where the number has none.
#[tactic(auto, using(crate::proofs::PlaceLaws::all_recoded))]
pub(crate) fn recode(codes: &mut [usize], places: &[Option<usize>])
    requires { All (λ code. code < length places.now) codes.old }
    ensures { codes.new ≡ map number_in (recoded places.now codes.old) }
{
    for code in codes.iter_mut() {
        *code = places[*code].unwrap_or(0);
    }
}

// The first rows of these numbers.
pub(crate) fn rows_of_numbers(
    alloc: Global,
    firsts: &[usize],
    numbers: &[usize],
) -> Result<Places, NoMemory>
    ensures { IfOk result (λ rows. rows ≡ map (first_row firsts.now) numbers.now) }
{
    let rows: Vec<usize> = numbers
        .iter()
        .map(|number| row_of(firsts, *number))
        .collect(alloc)?;
    Ok(Places::from(rows))
}
