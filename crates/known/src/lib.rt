// Known values of the processor, the assembler and the station, as one table.
#![tactic(auto)]

ghost use Rattle.known.specs.Table.{KnownCases};

pub fn known_cases_hold() -> u8
    ensures { KnownCases }
{
    0
}
