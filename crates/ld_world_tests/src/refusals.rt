//! What refuses a line, in the order of the numbers, and that it changes nothing.
use crate::course::STARTED;
use crate::telling::tell;
use std::test::Fail;

#[test]
fn refusals_change_nothing(rt: HostRuntime) -> Result<(), Fail> {
    tell(rt.alloc(), &STARTED, &REFUSALS)
}

const REFUSALS: [&str; 26] = [
    r#"["2024-01-01T09:00:00Z","fly","r"]
no 1 bad-line
"#,
    r#"["2024-01-01T09:00:00Z","create","s","nope"]
no 2 unknown-unit
"#,
    r#"["2024-01-01T09:00:00Z","create","r","course"]
no 3 run-exists
"#,
    r#"["2024-01-01T09:00:00Z","tick","q"]
no 4 unknown-run
"#,
    r#"["2024-01-01T08:59:59Z","tick","r"]
no 5 moment-back 2024-01-01T09:00:00Z
"#,
    r#"["2024-01-01T09:00:00Z","create","s","course"]
ok create
"#,
    r#"["2024-01-01T09:00:00Z","tick","s"]
no 6 not-started
"#,
    r#"["2024-01-01T09:00:00Z","start","s"]
no 16 role-short tutor 0 1
"#,
    r#"["2024-01-01T09:00:00Z","start","r"]
no 7 started-already
"#,
    r#"["2024-01-01T09:00:00Z","tree","r","zoe"]
no 8 unknown-person
"#,
    r#"["2024-01-01T09:00:00Z","enrol","r","ann"]
no 9 person-exists
"#,
    r#"["2024-01-01T09:00:00Z","assign","r","ann","guest"]
no 11 unknown-role
"#,
    r#"["2024-01-01T09:00:00Z","assign","r","ann","learner"]
no 12 holds-already
"#,
    r#"["2024-01-01T09:00:00Z","drop","r","ann","tutor"]
no 13 not-held
"#,
    r#"["2024-01-01T09:00:00Z","open","r","ann","nope"]
no 17 unknown-activity
"#,
    r#"["2024-01-01T09:00:00Z","complete","r","tom","watch"]
no 18 not-by-choice
"#,
    r#"["2024-01-01T09:00:00Z","get","r","ann","nope"]
no 19 unknown-property
"#,
    r#"["2024-01-01T09:00:00Z","global-get","urn:no",""]
no 20 unknown-global
"#,
    r#"["2024-01-01T09:00:00Z","global-set","urn:gate","","maybe"]
no 21 bad-value
"#,
    r#"["2024-01-01T09:00:00Z","global-set","urn:gate","ann","true"]
no 22 not-allowed
"#,
    r#"["2024-01-01T09:09:00Z","complete","r","ann","write"]
no 31 not-open
"#,
    r#"["2024-01-01T09:00:00Z","create","w","swing"]
ok create
"#,
    r#"["2024-01-01T09:00:00Z","enrol","w","ann"]
ok enrol turns=0 fired=0 rejected=0 sent=0
"#,
    r#"["2024-01-01T09:00:00Z","start","w"]
no 30 turn-budget
"#,
    r#"["2024-01-01T09:00:00Z","tick","w"]
no 6 not-started
"#,
    r#"["2024-01-01T09:00:00Z","report","r"]
ok report turns=0 fired=0 rejected=0 sent=0 lines=10
started 2024-01-01T09:00:00Z
role learner members=1
role tutor members=1
play p open
act a open 2024-01-01T09:00:00Z
part rp1 open
part rp2 open
part rp3 open
unit course open
notices 0
"#,
];
