// A price list: the price of every bus, then the congestion price and the angle price of every branch.
ghost use Rattle.std.specs.Prelude.{◌≡◌, ◌≤◌, MatchResult};
ghost use Rattle.word.specs.Fault.{RefusedWord};
ghost use Rattle.paper.specs.Prices.{branch_run, ColumnsFrom, PricesForm, ReadsPrices};

use crate::columns::column;
use measure::measured::{AnglePriceColumn, PriceColumn};
use network::prices::Prices;
use word::column::WordColumn;
use word::fault::WordFault;
use word::head::Head;
use word::range::{ANGLE_PRICE, PRICE};
use word::read::admit_all;
use word::run::Run;
use word::slot::Slot;

// The places of the branches' prices: two for each, in turn.
pub fn branch_run(branches: u8) -> Run
    ensures { result ≡ branch_run branches }
{
    Run {
        count: 2 * usize::from(branches),
        slot: PRICE,
        other: ANGLE_PRICE,
    }
}

// The price list that stands from a place on, as it stands in its words. Two counts, one by one, as each reader
// takes those that its form has.
pub fn price_columns<'a>(
    words: &'a [u32],
    start: usize,
    buses: u8,
    branches: u8,
) -> Prices<WordColumn<'a>>
    requires { start ≤ 2 }
    ensures { ColumnsFrom start buses branches words.now result }
{
    let after = start + usize::from(buses);
    Prices {
        bus: PriceColumn {
            column: column::<1>(words, start, usize::from(buses)),
        },
        congestion: PriceColumn {
            column: column::<2>(words, after, usize::from(branches)),
        },
        angle: AnglePriceColumn::new(column::<2>(words, after + 1, usize::from(branches))),
    }
}

// Reads a price list for so many buses and branches.
#[tactic(auto, using(crate::proofs::Lists::prices_refused, crate::proofs::Lists::reads_prices))]
pub fn read_prices<'a>(
    words: &'a [u32],
    buses: u8,
    branches: u8,
) -> Result<Prices<WordColumn<'a>>, WordFault>
    ensures { MatchResult result (λ p. ReadsPrices buses branches words.now p) (λ f. RefusedWord (PricesForm buses branches) words.now f) }
{
    admit_all(
        words,
        &[
            Run::one(Slot::Head(Head::Prices.number())),
            Run::many(usize::from(buses), PRICE),
            branch_run(branches),
            Run::one(Slot::End),
        ],
    )?;
    Ok(price_columns(words, 1, buses, branches))
}
