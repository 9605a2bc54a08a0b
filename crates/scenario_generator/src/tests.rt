//! Scenarios of numbers. The texts come from a program of its own, written after the paper on PCG, whose words from 42 on stream
//! 54 are those of the paper's demonstration.

use crate::generate;
use std::test::Fail;

const TWO_STATIONS: &str = "\
set,stations,2\n\
set,channels,11\n\
set,drift,50\n\
set,end,1000\n\
clock,1,657312\n\
rate,0,1,47\n\
clock,2,639637\n\
rate,0,2,-26\n\
delay,0,1,2,4568\n\
delay,0,2,1,80\n\
wave,0,1,3351,16,3351,9,3351,3\n\
wave,0,2,3351,6,3351,19,3351,13\n\
wave,500,1,10053,16,10053,9,10053,3\n\
wave,500,2,10053,16,10053,9,10053,3\n\
flip,375,375,2,1,220\n\
flip,625,625,2,1,227\n\
flip,750,750,2,1,229\n\
flip,125,125,1,2,1\n\
flip,250,250,1,2,67\n\
flip,500,500,1,2,94\n\
flip,875,875,1,2,92\n\
flip,500,500,1,2,104\n\
flip,375,375,1,2,118\n\
flip,125,125,2,1,126\n";

const THREE_STATIONS: &str = "\
set,stations,3\n\
set,channels,9\n\
set,drift,50\n\
set,end,20000000\n\
clock,1,725655\n\
rate,0,1,10\n\
clock,2,471638\n\
rate,0,2,-17\n\
clock,3,554406\n\
rate,0,3,-27\n\
delay,0,1,2,7875\n\
delay,0,1,3,44\n\
delay,0,2,1,4250\n\
delay,0,2,3,7148\n\
delay,0,3,1,7550\n\
delay,0,3,2,6866\n\
wave,0,1,2496,0,2496,13,2496,7\n\
wave,0,2,2496,10,2496,3,2496,17\n\
wave,10000000,1,7488,0,7488,13,7488,7\n\
wave,10000000,2,7488,0,7488,13,7488,7\n\
flip,8381500,8381500,1,3,46\n\
flip,9620500,9620500,2,3,130\n\
flip,17245625,17245625,2,1,197\n\
flip,1302250,1302250,1,3,153\n\
flip,8230125,8230125,3,1,142\n\
flip,16384625,16384625,3,2,213\n\
flip,6552750,6552750,2,3,204\n\
flip,4950000,4950000,1,3,182\n\
flip,4702500,4702500,1,2,128\n\
flip,6009500,6009500,3,2,110\n";

#[test]
fn gives_the_scenario_of_a_number(rt: HostRuntime) -> Result<(), Fail> {
    let cases = [(7, 1000, TWO_STATIONS), (1, 20_000_000, THREE_STATIONS)];
    for (number, ticks, want) in cases {
        let text = generate(rt.alloc(), number, ticks)?;
        assert_eq!(rt; text.as_slice(), want.as_bytes(), "at {number}");
    }
    Ok(())
}
