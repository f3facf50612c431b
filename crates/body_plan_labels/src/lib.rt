// Labels, and the rules of the instructions that branch to one and look at no type: br and br_if. A label that is absent is 21.
#![tactic(auto)]

ghost use Rattle.scope.specs.Instructions.{br, br_if};
ghost use Rattle.body_plan_labels.specs.Labels.{BlockLabel, LabelOf, Goes};

use body_plan_parts::{I32, WANTED};
use body_state::{LOOP, Plain, Planned, Scene, Values};
use scope::refusals;

// The types of the label of frame m. A loop's label has none.
#[tactic(auto, using(crate::proofs::Labels::label_exits))]
fn block_label(work: &[u32], m: u32) -> Values
    ensures { BlockLabel work.now m result }
{
    let loops = body_state::frame_word(work, m, LOOP);
    if loops == 1 {
        return Values::Types(0, 0);
    }
    body_state::results_of(work, m)
}

// Label l from within so many blocks: the innermost is label 0, the function's own the last.
#[tactic(auto, using(crate::proofs::Labels::label_exits))]
pub fn label_of(work: &[u32], scene: Scene, depth: u16, l: u64) -> Option<Values>
    ensures { LabelOf work.now scene depth l result }
{
    let blocks = depth as u64;
    if blocks < l {
        return None;
    }
    if blocks == l {
        let first = scene.first;
        let results = scene.results;
        return Some(Values::Types(first, results));
    }
    let label = block_label(work, (blocks - l + 1) as u32);
    Some(label)
}

// br l
#[tactic(auto, using(crate::proofs::Labels::label_exits))]
pub fn br(work: &[u32], scene: Scene, depth: u16, l: u64) -> Planned
    ensures { Goes work.now scene depth (br l) result }
{
    let label = label_of(work, scene, depth, l);
    match label {
        None => Planned::Fault(refusals::ABSENT),
        Some(values) => body_plan_parts::stops(values),
    }
}

// br_if l
#[tactic(auto, using(crate::proofs::Labels::label_exits))]
pub fn br_if(work: &[u32], scene: Scene, depth: u16, l: u64) -> Planned
    ensures { Goes work.now scene depth (br_if l) result }
{
    let label = label_of(work, scene, depth, l);
    match label {
        None => Planned::Fault(refusals::ABSENT),
        Some(values) => {
            let top = I32 + WANTED;
            Planned::Plain(Plain {
                top: top,
                second: 0,
                rest: values,
                back: true,
                gives: 0,
                marks: 0,
                stops: false,
            })
        }
    }
}
