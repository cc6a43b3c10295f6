//! Each limit exactly met, and exceeded by one.
ghost use Rattle.std.specs.Prelude.{◌≡◌, replicate, pos, Some};

use dynamics::channel::Channel;
use dynamics::direction::Direction;
use dynamics::keep_out::KeepOut;
use dynamics::model::Model;
use dynamics::refusal::Refusal;
use dynamics::start::Start;
use samples::values::channel;
use std::test::Fail;

fn out_of_range(place: usize) -> Option<Refusal>
    ensures { result ≡ Some (Refusal.OutOfRange place) }
{
    Some(Refusal::OutOfRange { place })
}

fn too_large(place: usize) -> Option<Refusal>
    ensures { result ≡ Some (Refusal.TooLarge place) }
{
    Some(Refusal::TooLarge { place })
}

fn still() -> Channel
    ensures { (result.gains ≡ replicate 4 (pos 0)) × (result.centre ≡ pos 0) × (result.radius ≡ pos 0) }
{
    channel([0; 4], 0, 0)
}

/// A channel whose gains meet their limits.
fn gust(centre: i64, radius: i64) -> Channel
    ensures { (result.centre ≡ centre) × (result.radius ≡ radius) }
{
    channel([1048576, -1048576, 0, 1], centre, radius)
}

#[test]
fn directions(rt: HostRuntime) {
    assert_eq!(rt; Direction::new([1048576, -1048576, 0, 1]).err(), None);
    assert_eq!(rt; Direction::new([1048577, 0, 0, 0]).err(), out_of_range(1));
    assert_eq!(rt; Direction::new([0, -1048577, 0, 0]).err(), out_of_range(2));
    assert_eq!(rt; Direction::new([0, 0, 0, i64::MIN]).err(), out_of_range(4));
    assert_eq!(rt;
        Direction::new([0, 0, 1048577, 1048577]).err(),
        out_of_range(3)
    );
}

#[test]
fn keep_outs(rt: HostRuntime) {
    let limit = 4503599627370496;
    assert_eq!(rt; KeepOut::new([1, 0, 0, 0], limit).err(), None);
    assert_eq!(rt; KeepOut::new([1, 0, 0, 0], -limit).err(), None);
    assert_eq!(rt;
        KeepOut::new([1, 0, 0, 0], limit + 1).err(),
        out_of_range(5)
    );
    assert_eq!(rt;
        KeepOut::new([1, 0, 0, 0], -limit - 1).err(),
        out_of_range(5)
    );
    assert_eq!(rt;
        KeepOut::new([0, 0, 0, -1048577], limit + 1).err(),
        out_of_range(4)
    );
}

#[test]
fn starts(rt: HostRuntime) {
    let limit = 1073741824;
    assert_eq!(rt;
        Start::new([limit, -limit, 0, 5], [0, 0, limit, 0]).err(),
        None
    );
    assert_eq!(rt;
        Start::new([limit, 0, 0, 0], [1, 0, 0, 0]).err(),
        too_large(2)
    );
    assert_eq!(rt;
        Start::new([-limit, 0, 0, 0], [1, 0, 0, 0]).err(),
        too_large(2)
    );
    assert_eq!(rt;
        Start::new([0, 0, 0, 1], [0, 0, 0, limit]).err(),
        too_large(8)
    );
    assert_eq!(rt;
        Start::new([limit + 1, 0, 0, 0], [0; 4]).err(),
        out_of_range(1)
    );
    assert_eq!(rt;
        Start::new([0; 4], [0, limit + 1, 0, 0]).err(),
        out_of_range(4)
    );
    assert_eq!(rt; Start::new([0; 4], [0, 0, -1, 0]).err(), out_of_range(6));
}

#[test]
fn a_range_of_a_start_comes_before_a_sum(rt: HostRuntime) {
    let limit = 1073741824;
    assert_eq!(rt;
        Start::new([limit, 0, 0, 0], [1, 0, 0, -1]).err(),
        out_of_range(8)
    );
    assert_eq!(rt;
        Start::new([limit, limit, 0, 0], [0, 1, 0, 0]).err(),
        too_large(4)
    );
}

#[test]
fn entries_of_a_model(rt: HostRuntime) {
    let most = 1048576;
    assert_eq!(rt;
        Model::new([[most, -most, 0, 1]; 4], still(), still()).err(),
        None
    );
    let mut matrix = [[0; 4]; 4];
    matrix[2][1] = most + 1;
    matrix[3][0] = -most - 1;
    assert_eq!(rt;
        Model::new(matrix, still(), still()).err(),
        out_of_range(10)
    );
    matrix[0][3] = -most - 1;
    assert_eq!(rt; Model::new(matrix, still(), still()).err(), out_of_range(4));
}

#[test]
fn gusts_of_a_model(rt: HostRuntime) {
    let limit = 16777216;
    let zero = [[0; 4]; 4];
    assert_eq!(rt;
        Model::new(zero, gust(limit, 0), gust(-limit, 0)).err(),
        None
    );
    assert_eq!(rt;
        Model::new(zero, gust(0, limit), gust(1, limit - 1)).err(),
        None
    );
    assert_eq!(rt;
        Model::new(zero, gust(limit, 1), still()).err(),
        too_large(22)
    );
    assert_eq!(rt;
        Model::new(zero, still(), gust(-1, limit)).err(),
        too_large(28)
    );
    assert_eq!(rt;
        Model::new(zero, gust(limit + 1, 0), still()).err(),
        out_of_range(21)
    );
    assert_eq!(rt;
        Model::new(zero, gust(0, -1), still()).err(),
        out_of_range(22)
    );
    assert_eq!(rt;
        Model::new(zero, still(), gust(0, limit + 1)).err(),
        out_of_range(28)
    );
}

#[test]
fn a_range_of_a_model_comes_before_a_sum(rt: HostRuntime) {
    let mut second = still();
    second.gains[3] = 1048577;
    assert_eq!(rt;
        Model::new([[0; 4]; 4], gust(16777216, 1), second).err(),
        out_of_range(26)
    );
    second.gains[0] = -1048577;
    assert_eq!(rt;
        Model::new([[0; 4]; 4], gust(16777216, 1), second).err(),
        out_of_range(23)
    );
}

#[test]
fn whole_rows(rt: HostRuntime) -> Result<(), Fail> {
    let matrix = [
        [4096, -8192, 0, 0],
        [0; 4],
        [4096, 1, 0, 0],
        [4096, 0, 0, -4096],
    ];
    let mut first = still();
    first.gains = [0, 4096, 0, 2048];
    assert_eq!(rt;
        Model::new(matrix, first, still())?.allowances(),
        [0, 0, 4095, 4095]
    );
    Ok(())
}
