#![tactic(auto)]

// The C interface: include/rathunxa.h declares these functions. Each only passes its arguments on.
ghost use Rattle.std.specs.Prelude.{◌≡◌};
ghost use Rattle.working.specs.Latest.{LatestWritten};
ghost use Rattle.working.specs.Working.{FilesWorked};
ghost use Rattle.comparisons.specs.Answers.{compare_answer};
ghost use Rattle.open_calls.specs.Answers.{join_answer};

use comparisons::Comparison;
use open_calls::JoinAnswer;
use timestamps::Timestamp;
use working::Answer;

#[unsafe(no_mangle)]
pub extern "C" fn rathunxa_work(plan: &[u8], passage: &[u8], output: &mut [u8]) -> Answer
    ensures answers { FilesWorked plan.now passage.now output.old result output.new }
    ensures latest { LatestWritten plan.now passage.now result output.new }
{
    gateway::work(plan, passage, output)
}

#[unsafe(no_mangle)]
pub extern "C" fn rathunxa_join(ratio: u64, list: &[Timestamp]) -> JoinAnswer
    ensures { result ≡ join_answer ratio list.now }
{
    open_calls::join(ratio, list)
}

#[unsafe(no_mangle)]
pub extern "C" fn rathunxa_compare(
    ratio: u64,
    first: &[Timestamp],
    second: &[Timestamp],
) -> Comparison
    ensures { result ≡ compare_answer ratio first.now second.now }
{
    comparisons::compare(ratio, first, second)
}
