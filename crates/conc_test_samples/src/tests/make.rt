use super::expect::same;
use conc_make::make;
use std::test::Fail;

// What another program makes of seed 7 and three submissions.
const SCRIPT: &str = concat!(
    "at,do,what,user,priority,start,domain,argument\n",
    "2025-01-01T00:00:00,submit,S,u0,35,,d1,\n",
    "2025-01-01T00:00:00,submit,P1,u0,93,,d3,\n",
    "2025-01-01T00:00:00,submit,P5,u0,26,,d2,\n",
);

const TABLE: &str = concat!(
    "k,v\n",
    "k3,231\nk3,673\nk0,219\nk4,764\nk4,686\nk0,75\nk2,280\nk4,962\n",
    "k0,899\nk1,951\nk1,793\nk4,98\nk3,704\nk0,945\nk3,632\nk2,517\n",
    "k0,875\nk3,939\nk4,307\nk2,752\nk0,335\nk3,10\nk0,544\nk4,304\n",
    "k1,490\nk2,654\nk2,668\nk4,851\nk3,856\nk1,603\nk4,133\nk3,660\n",
    "k0,785\nk0,683\nk2,538\nk1,198\nk0,523\nk3,165\nk3,781\nk0,734\n",
    "k2,135\nk1,432\nk2,399\nk3,867\nk4,779\nk0,121\nk2,354\nk3,758\n",
    "k0,476\nk0,183\nk1,406\nk0,372\nk1,851\nk0,104\nk4,271\nk1,603\n",
    "k3,200\nk0,254\nk2,421\nk0,607\nk2,646\nk3,950\nk0,988\nk2,514\n",
);

#[test]
fn makes_what_another_program_makes(rt: HostRuntime) -> Result<(), Fail> {
    let inputs = make(rt.alloc(), 7, 3)?;
    same(&rt, inputs.setup.len(), 913);
    same(&rt, inputs.script.as_slice(), SCRIPT.as_bytes());
    same(
        &rt,
        inputs.clock.as_slice(),
        b"2025-01-01T00:00:00\n".as_slice(),
    );
    same(&rt, inputs.table.as_slice(), TABLE.as_bytes());
    Ok(())
}
