// All instructions of a body, with the table of numeric codes laid out once for them. The table's rule, the core standard's ranges
// in scope's specs/Numeric.antt, is proved here, once over the whole.
#![tactic(auto)]

ghost use Rattle.body_loop.specs.Loop.{Begun, JudgedFrom};
ghost use Rattle.type_table.specs.View.{both_codes};
ghost use Rattle.type_hierarchy.specs.Ranged.{Ranged};

use body_state::Scene;
use scope::Read;

// One entry for each first byte, by its pairs of binary digits: how many operands, the code of their type, the code of the
// result's type (00 i32, 01 i64, 10 f32, 11 f64); 0 where the byte is no numeric code.
const NUMERIC: [u8; 256] = [
    // 00 to 44: no numeric code
    0, 0, 0, 0, 0, 0, 0, 0, 0, 0, 0, 0, 0, 0, 0, 0, 0, 0, 0, 0, 0, 0, 0, 0, 0, 0, 0, 0, 0, 0, 0, 0,
    0, 0, 0, 0, 0, 0, 0, 0, 0, 0, 0, 0, 0, 0, 0, 0, 0, 0, 0, 0, 0, 0, 0, 0, 0, 0, 0, 0, 0, 0, 0, 0,
    0, 0, 0, 0, 0,
    // eqz and the comparisons of i32
    0b01_00_00, // 45 i32.eqz
    0b10_00_00, // 46 i32.eq
    0b10_00_00, // 47 i32.ne
    0b10_00_00, // 48 i32.lt_s
    0b10_00_00, // 49 i32.lt_u
    0b10_00_00, // 4A i32.gt_s
    0b10_00_00, // 4B i32.gt_u
    0b10_00_00, // 4C i32.le_s
    0b10_00_00, // 4D i32.le_u
    0b10_00_00, // 4E i32.ge_s
    0b10_00_00, // 4F i32.ge_u
    // of i64
    0b01_01_00, // 50 i64.eqz
    0b10_01_00, // 51 i64.eq
    0b10_01_00, // 52 i64.ne
    0b10_01_00, // 53 i64.lt_s
    0b10_01_00, // 54 i64.lt_u
    0b10_01_00, // 55 i64.gt_s
    0b10_01_00, // 56 i64.gt_u
    0b10_01_00, // 57 i64.le_s
    0b10_01_00, // 58 i64.le_u
    0b10_01_00, // 59 i64.ge_s
    0b10_01_00, // 5A i64.ge_u
    // of f32
    0b10_10_00, // 5B f32.eq
    0b10_10_00, // 5C f32.ne
    0b10_10_00, // 5D f32.lt
    0b10_10_00, // 5E f32.gt
    0b10_10_00, // 5F f32.le
    0b10_10_00, // 60 f32.ge
    // of f64
    0b10_11_00, // 61 f64.eq
    0b10_11_00, // 62 f64.ne
    0b10_11_00, // 63 f64.lt
    0b10_11_00, // 64 f64.gt
    0b10_11_00, // 65 f64.le
    0b10_11_00, // 66 f64.ge
    // i32 to i32
    0b01_00_00, // 67 i32.clz
    0b01_00_00, // 68 i32.ctz
    0b01_00_00, // 69 i32.popcnt
    0b10_00_00, // 6A i32.add
    0b10_00_00, // 6B i32.sub
    0b10_00_00, // 6C i32.mul
    0b10_00_00, // 6D i32.div_s
    0b10_00_00, // 6E i32.div_u
    0b10_00_00, // 6F i32.rem_s
    0b10_00_00, // 70 i32.rem_u
    0b10_00_00, // 71 i32.and
    0b10_00_00, // 72 i32.or
    0b10_00_00, // 73 i32.xor
    0b10_00_00, // 74 i32.shl
    0b10_00_00, // 75 i32.shr_s
    0b10_00_00, // 76 i32.shr_u
    0b10_00_00, // 77 i32.rotl
    0b10_00_00, // 78 i32.rotr
    // i64 to i64
    0b01_01_01, // 79 i64.clz
    0b01_01_01, // 7A i64.ctz
    0b01_01_01, // 7B i64.popcnt
    0b10_01_01, // 7C i64.add
    0b10_01_01, // 7D i64.sub
    0b10_01_01, // 7E i64.mul
    0b10_01_01, // 7F i64.div_s
    0b10_01_01, // 80 i64.div_u
    0b10_01_01, // 81 i64.rem_s
    0b10_01_01, // 82 i64.rem_u
    0b10_01_01, // 83 i64.and
    0b10_01_01, // 84 i64.or
    0b10_01_01, // 85 i64.xor
    0b10_01_01, // 86 i64.shl
    0b10_01_01, // 87 i64.shr_s
    0b10_01_01, // 88 i64.shr_u
    0b10_01_01, // 89 i64.rotl
    0b10_01_01, // 8A i64.rotr
    // f32 to f32
    0b01_10_10, // 8B f32.abs
    0b01_10_10, // 8C f32.neg
    0b01_10_10, // 8D f32.ceil
    0b01_10_10, // 8E f32.floor
    0b01_10_10, // 8F f32.trunc
    0b01_10_10, // 90 f32.nearest
    0b01_10_10, // 91 f32.sqrt
    0b10_10_10, // 92 f32.add
    0b10_10_10, // 93 f32.sub
    0b10_10_10, // 94 f32.mul
    0b10_10_10, // 95 f32.div
    0b10_10_10, // 96 f32.min
    0b10_10_10, // 97 f32.max
    0b10_10_10, // 98 f32.copysign
    // f64 to f64
    0b01_11_11, // 99 f64.abs
    0b01_11_11, // 9A f64.neg
    0b01_11_11, // 9B f64.ceil
    0b01_11_11, // 9C f64.floor
    0b01_11_11, // 9D f64.trunc
    0b01_11_11, // 9E f64.nearest
    0b01_11_11, // 9F f64.sqrt
    0b10_11_11, // A0 f64.add
    0b10_11_11, // A1 f64.sub
    0b10_11_11, // A2 f64.mul
    0b10_11_11, // A3 f64.div
    0b10_11_11, // A4 f64.min
    0b10_11_11, // A5 f64.max
    0b10_11_11, // A6 f64.copysign
    // to i32
    0b01_01_00, // A7 i32.wrap_i64
    0b01_10_00, // A8 i32.trunc_f32_s
    0b01_10_00, // A9 i32.trunc_f32_u
    0b01_11_00, // AA i32.trunc_f64_s
    0b01_11_00, // AB i32.trunc_f64_u
    // to i64
    0b01_00_01, // AC i64.extend_i32_s
    0b01_00_01, // AD i64.extend_i32_u
    0b01_10_01, // AE i64.trunc_f32_s
    0b01_10_01, // AF i64.trunc_f32_u
    0b01_11_01, // B0 i64.trunc_f64_s
    0b01_11_01, // B1 i64.trunc_f64_u
    // to f32
    0b01_00_10, // B2 f32.convert_i32_s
    0b01_00_10, // B3 f32.convert_i32_u
    0b01_01_10, // B4 f32.convert_i64_s
    0b01_01_10, // B5 f32.convert_i64_u
    0b01_11_10, // B6 f32.demote_f64
    // to f64
    0b01_00_11, // B7 f64.convert_i32_s
    0b01_00_11, // B8 f64.convert_i32_u
    0b01_01_11, // B9 f64.convert_i64_s
    0b01_01_11, // BA f64.convert_i64_u
    0b01_10_11, // BB f64.promote_f32
    // the same bits read as another kind
    0b01_10_00, // BC i32.reinterpret_f32
    0b01_11_01, // BD i64.reinterpret_f64
    0b01_00_10, // BE f32.reinterpret_i32
    0b01_01_11, // BF f64.reinterpret_i64
    // the low bits with their sign
    0b01_00_00, // C0 i32.extend8_s
    0b01_00_00, // C1 i32.extend16_s
    0b01_01_01, // C2 i64.extend8_s
    0b01_01_01, // C3 i64.extend16_s
    0b01_01_01, // C4 i64.extend32_s
    // C5 to FF: no numeric code
    0, 0, 0, 0, 0, 0, 0, 0, 0, 0, 0, 0, 0, 0, 0, 0, 0, 0, 0, 0, 0, 0, 0, 0, 0, 0, 0, 0, 0, 0, 0, 0,
    0, 0, 0, 0, 0, 0, 0, 0, 0, 0, 0, 0, 0, 0, 0, 0, 0, 0, 0, 0, 0, 0, 0, 0, 0, 0, 0,
];

// The instructions from the place `at` on, up to the last `end`.
pub fn judge_all(
    rows: &[u16],
    shared: &[u16],
    codes: &[u16],
    work: &mut [u32],
    scene: Scene,
    s: &[u8],
    at: usize,
) -> Read<u64>
    requires begun { Begun work.old scene s.now at }
    requires ranged { Ranged rows.now (both_codes shared.now codes.now) }
    ensures { JudgedFrom rows.now (both_codes shared.now codes.now) work.old work.new scene s.now at result }
{
    let table = NUMERIC;
    body_loop::judge_from(rows, shared, codes, &table, work, scene, s, at)
}
