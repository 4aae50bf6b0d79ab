//! The bench numbers: numbers that a bench can check by hand, in one table, and the law that every row of it holds.
#![tactic(auto)]

ghost use Rattle.bench.specs.Table.{TheBenchNumbersHold};

/// Every row of the table holds, by the definitions that the contracts of the other crates cite.
pub fn the_bench_numbers_hold()
    ensures law { TheBenchNumbersHold }
{}
