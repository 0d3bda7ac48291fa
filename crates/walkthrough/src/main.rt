// One auction, followed from the first bid to the last centavo: 200 million dollars on Monday 6 March 2017,
// the highest rate first, ties shared by amount, and two fixings under daily settlement.
#![tactic(auto)]

mod auction;
mod show;

use accounts::Accounts;
use accounts::payment::pay;
use accounts::table::Table;
use auction::{Hedge, MILLION, Met, Price, Stopped, allot, named, total};
use conventions::{Convention, Daily, Question};
use show::{Day, Grouped, Pesos, Rate};
use terms::plan::Plan;
use terms::rounding::payment;

const AUCTION_DAY: u32 = 64;

const MATURITY_DAY: u32 = 94;

// 20 March, 13 and 14 April and 1 May 2017.
const HOLIDAYS: [i64; 4] = [78, 102, 103, 120];

const OFFER: u32 = 200;

const PRICES: [Price; 4] = [
    Price {
        rate: 196_100,
        bids: &[(1, 60)],
    },
    Price {
        rate: 196_000,
        bids: &[(2, 50)],
    },
    Price {
        rate: 195_900,
        bids: &[(3, 40), (4, 80), (2, 50)],
    },
    Price {
        rate: 195_500,
        bids: &[(5, 70)],
    },
];

const FIXINGS: [(u32, i32); 2] = [(65, 195_125), (66, 196_375)];

fn announce(rt: &HostRuntime) -> Result<(), Stopped> {
    let plan = Plan::check(i64::from(AUCTION_DAY), 0, &HOLIDAYS)?;
    let maturity = i64::from(MATURITY_DAY);
    let business = plan.is_business_day(maturity);
    let offer = Grouped(u64::from(OFFER));
    println!(rt;
        "{}: an auction of hedges on {offer} million dollars, rates in pesos per dollar.",
        Day(AUCTION_DAY)
    )?;
    println!(rt;
        "They mature on {} (a business day: {business}).",
        Day(MATURITY_DAY)
    )?;
    println!(rt;
        "The highest rate is met first. Bids at the first rate that do not all fit share what is left by amount."
    )?;
    Ok(())
}

// Meets the bids at one rate, and returns the dollars left after them.
fn meet(
    rt: &HostRuntime,
    price: &Price,
    left: u32,
    hedges: &mut Vec<Hedge>,
) -> Result<u32, Stopped> {
    let amounts = named(rt.alloc(), price)?;
    let (met, shares) = allot(rt.alloc(), amounts.as_slice(), left)?;
    let wanted = Grouped(total(amounts.as_slice()));
    println!(rt;
        "\nat {}: {wanted} dollars wanted, {} left: {}",
        Rate(price.rate),
        Grouped(u64::from(left)),
        met
    )?;
    let mut rest = left;
    for ((institution, millions), dollars) in price.bids.iter().zip(shares.iter()) {
        let number = hedges.len().saturating_add(1);
        let got = Grouped(u64::from(*dollars));
        if *dollars == 0 {
            println!(rt; "  institution {institution} bid {millions} million and gets nothing")?;
            continue;
        }
        println!(rt;
            "  institution {institution} bid {millions} million and gets {got} dollars: hedge {number}"
        )?;
        hedges.push(Hedge {
            number,
            institution: *institution,
            dollars: *dollars,
            settled: price.rate,
            since: AUCTION_DAY,
        })?;
        rest = rest.saturating_sub(*dollars);
    }
    Ok(rest)
}

// Settles one hedge where the convention says so: the line, posted between the bank and the institution.
fn settle<A: Accounts, C: Convention>(
    rt: &HostRuntime,
    day: u32,
    rate: i32,
    hedge: &mut Hedge,
    accounts: &mut A,
    convention: &C,
) -> Result<(), Stopped> {
    let rise = rate.saturating_sub(hedge.settled);
    let question = Question {
        day,
        days_since: day.saturating_sub(hedge.since),
        rise,
        closing: day == MATURITY_DAY,
    };
    if !convention.decide(question).settles() {
        return Ok(());
    }
    let centavos = payment(hedge.dollars, rise);
    pay(accounts, i64::from(hedge.institution), centavos)?;
    let dollars = Grouped(u64::from(hedge.dollars));
    let side = if centavos < 0 { "pays" } else { "receives" };
    println!(rt;
        "  hedge {}: {dollars} times {} is {}: institution {} {side}",
        hedge.number,
        Rate(rise),
        Pesos(centavos),
        hedge.institution
    )?;
    hedge.settled = rate;
    hedge.since = day;
    Ok(())
}

fn balances<A: Accounts>(rt: &HostRuntime, accounts: &A) -> Result<(), Stopped> {
    let used = A::capacity().saturating_sub(accounts.free_postings());
    println!(rt; "\nBalances after {used} postings, in pesos")?;
    let mut sum = 0i64;
    for party in 0..6i64 {
        let balance = accounts.balance(party)?;
        sum = sum.saturating_add(balance);
        match party {
            0 => println!(rt; "  central bank   {}", Pesos(balance))?,
            _ => println!(rt; "  institution {party}  {}", Pesos(balance))?,
        }
    }
    println!(rt; "  sum            {}", Pesos(sum))?;
    Ok(())
}

fn main(rt: HostRuntime) -> Result<(), Stopped> {
    announce(&rt)?;
    let mut hedges = Vec::new(rt.alloc());
    let mut left = OFFER.saturating_mul(MILLION);
    for price in &PRICES {
        left = meet(&rt, price, left, &mut hedges)?;
    }
    let mut table = Table::new();
    for (day, rate) in FIXINGS {
        println!(rt; "\n{}: fixing at {}", Day(day), Rate(rate))?;
        for hedge in hedges.iter_mut() {
            settle(&rt, day, rate, hedge, &mut table, &Daily)?;
        }
    }
    balances(&rt, &table)
}
