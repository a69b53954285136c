ghost use Rattle.std.specs.Prelude.{◌≡◌, ◌≤◌, length};

use super::*;
use std::array;

// A bin of which these are the numbers, in the order of the fields.
fn bin(used: u64, mean: u64, threshold: u64, get: u64, cleaned: u64, ages: &[u64]) -> CacheNumbers
    requires { length ages.now ≤ 64 }
    ensures { result.used ≡ used }
{
    CacheNumbers {
        used,
        mean,
        threshold,
        get,
        cleaned,
        ages: copied(ages),
    }
}

fn step(numbers: CacheNumbers, taken: bool, released: u8) -> CacheStep {
    CacheStep {
        numbers,
        taken,
        released,
    }
}

#[test]
fn what_was_put_is_taken(rt: HostRuntime) {
    let put = cache_step(&bin(1, 0, 0, 1, 0, &[]), CacheOp::Put, 2);
    assert_eq!(rt; put, step(bin(0, 0, 0, 1, 0, &[2]), false, 0));
    let get = cache_step(&put.numbers, CacheOp::Get, 7);
    assert_eq!(rt; get, step(bin(1, 5, 0, 7, 0, &[]), true, 0));
}

#[test]
fn the_mean_is_rounded_down(rt: HostRuntime) {
    let get = cache_step(&bin(1, 8, 0, 1, 0, &[2]), CacheOp::Get, 7);
    assert_eq!(rt; get.numbers.mean, 6);
}

#[test]
fn an_age_above_the_time_lay_for_nearly_all_ticks(rt: HostRuntime) {
    let get = cache_step(&bin(0, 0, 0, 0, 0, &[9]), CacheOp::Get, 3);
    assert_eq!(rt; get.numbers.mean, u64::MAX - 5);
}

#[test]
fn a_miss_sets_the_threshold(rt: HostRuntime) {
    let get = cache_step(&bin(0, 0, 0, 0, 4, &[]), CacheOp::Get, 257);
    assert_eq!(rt; get, step(bin(1, 0, 506, 257, 0, &[]), false, 0));
    let undo = cache_step(&get.numbers, CacheOp::Undo, 258);
    assert_eq!(rt; undo, step(bin(0, 0, 506, 257, 0, &[]), false, 0));
    let wrapped = cache_step(&bin(0, 0, 0, 0, 9, &[]), CacheOp::Get, 3);
    assert_eq!(rt; wrapped.numbers.threshold, u64::MAX);
}

// The ages of a full bin into which an item was put at each of the last 64 ticks.
fn full(newest: u64) -> [u64; 64]
    requires { 64 ≤ newest }
{
    array::from_fn(|i| newest - i as u64)
}

#[test]
fn a_full_bin_releases_the_oldest_at_a_put(rt: HostRuntime) {
    let put = cache_step(&bin(1, 0, 0, 0, 0, &full(164)), CacheOp::Put, 165);
    assert_eq!(rt; put, step(bin(0, 0, 0, 0, 101, &full(165)), false, 1));
}

#[test]
fn a_regular_cleanup_goes_by_the_last_get_and_the_items(rt: HostRuntime) {
    let few = bin(4, 7, 5, 11, 0, &[90, 80, 70]);
    let waited = cache_step(&few, CacheOp::Regular, 92);
    assert_eq!(rt; waited, step(bin(4, 7, 0, 11, 90, &[]), false, 3));
    let not_yet = cache_step(&few, CacheOp::Regular, 91);
    assert_eq!(rt; not_yet, step(bin(4, 7, 5, 11, 80, &[90]), false, 2));
    let many = cache_step(&bin(1, 7, 5, 11, 0, &[90, 87, 70]), CacheOp::Regular, 91);
    assert_eq!(rt; many, step(bin(1, 7, 6, 11, 70, &[90, 87]), false, 1));
}

#[test]
fn a_soft_cleanup_stops_at_the_first_from_the_end_that_may_stay(rt: HostRuntime) {
    let stays = cache_step(
        &bin(9, 25, 10, 11, 0, &[90, 85, 70, 85]),
        CacheOp::Soft,
        100,
    );
    assert_eq!(rt;
        stays,
        step(bin(9, 25, 17, 11, 0, &[90, 85, 70, 85]), false, 0)
    );
    let goes = cache_step(
        &bin(9, 25, 10, 11, 0, &[90, 85, 70, 60]),
        CacheOp::Soft,
        100,
    );
    assert_eq!(rt; goes, step(bin(9, 25, 17, 11, 70, &[90, 85]), false, 2));
}

#[test]
fn a_hard_cleanup_releases_all(rt: HostRuntime) {
    let hard = cache_step(&bin(9, 25, 10, 11, 0, &[90, 85]), CacheOp::Hard, 100);
    assert_eq!(rt; hard, step(bin(9, 25, 10, 11, 90, &[]), false, 2));
}

#[test]
fn cleanups_leave_a_bin_without_items_as_it_is(rt: HostRuntime) {
    let empty = bin(0, 25, 10, 11, 4, &[]);
    for cleanup in [
        cache_step(&empty, CacheOp::Regular, 500),
        cache_step(&empty, CacheOp::Soft, 500),
        cache_step(&empty, CacheOp::Hard, 500),
    ] {
        assert_eq!(rt; cleanup, step(bin(0, 25, 10, 11, 4, &[]), false, 0));
    }
}
