//! A program beside the report: the worked plan over the zonotope, after one step.
#![tactic(auto)]

use domains::domain::Domain;
use dynamics::direction::Direction;
use samples::values::{plan_model, plan_start};
use std::io;
use zonotope::zonotope::Zonotope;

/// Prints the line of four numbers, or that they are absent.
fn print_parts(rt: &impl Print, name: &str, parts: Option<[i64; 4]>) -> io::Result<()> {
    print!(rt; "{name}")?;
    match parts {
        None => println!(rt; "\tabsent"),
        Some(parts) => {
            for part in parts {
                print!(rt; "\t{part}")?;
            }
            println!(rt; "")
        }
    }
}

/// Prints the line of a bound, or that it is absent.
fn print_bound(rt: &impl Print, bound: Option<i64>) -> io::Result<()> {
    match bound {
        None => println!(rt; "bound\tabsent"),
        Some(bound) => println!(rt; "bound\t{bound}"),
    }
}

/// Prints centre, axis part, generators and spread, a line for each vector.
fn print_shape(rt: &impl Print, zonotope: &Zonotope) -> io::Result<()> {
    print_parts(rt, "centre", zonotope.centre())?;
    print_parts(rt, "axis", zonotope.axis_part())?;
    for generator in (0..16).filter_map(|place| zonotope.generator(place)) {
        print_parts(rt, "generator", Some(generator))?;
    }
    print_parts(rt, "spread", zonotope.spread())
}

fn main(rt: HostRuntime) -> anyhow::Result<()> {
    let model = plan_model()?;
    let start = plan_start()?;
    let ahead = Direction::new([1, 0, 0, 0])?;
    let zonotope = Zonotope::after(&model, &start, 1);
    print_shape(&rt, &zonotope)?;
    print_bound(&rt, zonotope.bound(&ahead))?;
    Ok(())
}
