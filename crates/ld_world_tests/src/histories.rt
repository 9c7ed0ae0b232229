//! Histories of one subject each.
use crate::course::STARTED;
use crate::telling::tell;
use std::test::Fail;

#[test]
fn a_course_runs(rt: HostRuntime) -> Result<(), Fail> {
    tell(rt.alloc(), &STARTED, &COURSE_RUNS)
}

const COURSE_RUNS: [&str; 7] = [
    r#"["2024-01-01T09:00:00Z","tree","r","ann"]
ok tree turns=0 fired=0 rejected=0 sent=0 lines=10
unit course open "A course"
  play p open
    act a open
      part rp1 open
        activity read open "Read"
          environment room
            object book "A book"
              item page p.html
          item text t.html "Text"
      part rp2 open
"#,
    r#"["2024-01-01T09:01:00Z","open","r","ann","read"]
ok open turns=0 fired=0 rejected=0 sent=0
"#,
    r#"["2024-01-01T09:02:00Z","complete","r","ann","read"]
ok complete turns=1 fired=2 rejected=0 sent=0
"#,
    r#"["2024-01-01T09:03:00Z","set","r","tom","gate","true"]
ok set turns=1 fired=2 rejected=0 sent=2
"#,
    r#"["2024-01-01T09:04:00Z","complete","r","ann","write"]
ok complete turns=1 fired=5 rejected=0 sent=1
"#,
    r#"["2024-01-01T09:05:00Z","report","r"]
ok report turns=0 fired=0 rejected=0 sent=0 lines=10
started 2024-01-01T09:00:00Z
role learner members=1
role tutor members=1
play p done
act a done 2024-01-01T09:00:00Z
part rp1 done
part rp2 done
part rp3 open
unit course done
notices 3
"#,
    r#"["2024-01-01T09:06:00Z","tree","r","ann"]
ok tree turns=0 fired=0 rejected=0 sent=0 lines=4
unit course done "A course"
  item bye bye.html
  play p done
    act a done
"#,
];

#[test]
fn notices_reach_their_persons(rt: HostRuntime) -> Result<(), Fail> {
    tell(rt.alloc(), &STARTED, &NOTICES)
}

const NOTICES: [&str; 4] = [
    r#"["2024-01-01T09:00:00Z","outbox","r","tom"]
ok outbox turns=0 fired=0 rejected=0 sent=0 lines=0
"#,
    r#"["2024-01-01T09:03:00Z","set","r","tom","gate","true"]
ok set turns=1 fired=2 rejected=0 sent=2
"#,
    r#"["2024-01-01T09:04:00Z","outbox","r","tom"]
ok outbox turns=0 fired=0 rejected=0 sent=0 lines=2
notice 1 2024-01-01T09:03:00Z write "Open"
notice 2 2024-01-01T09:03:00Z write "Open"
"#,
    r#"["2024-01-01T09:05:00Z","outbox","r","ann"]
ok outbox turns=0 fired=0 rejected=0 sent=0 lines=0
"#,
];

#[test]
fn values_are_kept(rt: HostRuntime) -> Result<(), Fail> {
    tell(rt.alloc(), &STARTED, &VALUES)
}

const VALUES: [&str; 9] = [
    r#"["2024-01-01T09:01:00Z","get","r","ann","score"]
ok get turns=0 fired=0 rejected=0 sent=0 value=none
"#,
    r#"["2024-01-01T09:02:00Z","set","r","ann","score","007"]
ok set turns=0 fired=0 rejected=0 sent=0
"#,
    r#"["2024-01-01T09:03:00Z","set","r","ann","score","11"]
no 21 bad-value
"#,
    r#"["2024-01-01T09:04:00Z","get","r","ann","score"]
ok get turns=0 fired=0 rejected=0 sent=0 value="7"
"#,
    r#"["2024-01-01T09:05:00Z","get","r","tom","score"]
ok get turns=0 fired=0 rejected=0 sent=0 value=none
"#,
    r#"["2024-01-01T09:06:00Z","set","r","ann","note","no"]
no 22 not-allowed
"#,
    r#"["2024-01-01T09:07:00Z","set","r","tom","note","a \"b\""]
ok set turns=0 fired=0 rejected=0 sent=0
"#,
    r#"["2024-01-01T09:08:00Z","get","r","ann","note"]
ok get turns=0 fired=0 rejected=0 sent=0 value="a \"b\""
"#,
    r#"["2024-01-01T09:09:00Z","clear","r","ann","score"]
ok clear turns=0 fired=0 rejected=0 sent=0
"#,
];

#[test]
fn time_passes_and_roles_change(rt: HostRuntime) -> Result<(), Fail> {
    tell(rt.alloc(), &STARTED, &MOMENTS)
}

const MOMENTS: [&str; 14] = [
    r#"["2024-01-01T09:10:00Z","open","r","tom","watch"]
ok open turns=0 fired=0 rejected=0 sent=0
"#,
    r#"["2024-01-01T09:10:00Z","next","r"]
ok next turns=0 fired=0 rejected=0 sent=0 at=2024-01-01T10:10:00Z
"#,
    r#"["2024-01-01T10:09:59Z","tick","r"]
ok tick turns=0 fired=0 rejected=0 sent=0
"#,
    r#"["2024-01-01T10:10:00Z","tick","r"]
ok tick turns=1 fired=2 rejected=0 sent=0
"#,
    r#"["2024-01-01T10:10:00Z","next","r"]
ok next turns=0 fired=0 rejected=0 sent=0 at=none
"#,
    r#"["2024-01-01T10:11:00Z","drop","r","ann","learner"]
ok drop turns=0 fired=0 rejected=0 sent=0
"#,
    r#"["2024-01-01T10:12:00Z","complete","r","ann","read"]
no 31 not-open
"#,
    r#"["2024-01-01T10:13:00Z","enrol","r","eve"]
ok enrol turns=1 fired=1 rejected=0 sent=0
"#,
    r#"["2024-01-01T10:14:00Z","assign","r","eve","learner"]
ok assign turns=0 fired=0 rejected=0 sent=0
"#,
    r#"["2024-01-01T10:15:00Z","complete","r","eve","read"]
ok complete turns=1 fired=2 rejected=0 sent=0
"#,
    r#"["2024-01-01T10:16:00Z","drop","r","tom","tutor"]
no 16 role-short tutor 0 1
"#,
    r#"["2024-01-01T10:17:00Z","assign","r","ann","learner"]
ok assign turns=0 fired=0 rejected=0 sent=0
"#,
    r#"["2024-01-01T10:18:00Z","enrol","r","bob"]
ok enrol turns=1 fired=1 rejected=0 sent=0
"#,
    r#"["2024-01-01T10:19:00Z","assign","r","bob","learner"]
no 14 role-full
"#,
];

#[test]
fn runs_share_global_values(rt: HostRuntime) -> Result<(), Fail> {
    tell(rt.alloc(), &STARTED, &GLOBALS)
}

const GLOBALS: [&str; 14] = [
    r#"["2024-01-01T08:00:00Z","create","s","course"]
ok create
"#,
    r#"["2024-01-01T08:00:00Z","enrol","s","tom"]
ok enrol turns=0 fired=0 rejected=0 sent=0
"#,
    r#"["2024-01-01T08:00:00Z","assign","s","tom","tutor"]
ok assign turns=0 fired=0 rejected=0 sent=0
"#,
    r#"["2024-01-01T09:00:00Z","start","s"]
ok start turns=1 fired=2 rejected=0 sent=0
"#,
    r#"["2024-01-01T09:01:00Z","set","r","tom","nick","T"]
ok set turns=0 fired=0 rejected=0 sent=0
"#,
    r#"["2024-01-01T09:01:00Z","get","s","tom","nick"]
ok get turns=0 fired=0 rejected=0 sent=0 value="T"
"#,
    r#"["2024-01-01T09:02:00Z","set","r","ann","gate","true"]
ok set turns=1 fired=2 rejected=0 sent=2
"#,
    r#"["2024-01-01T09:02:00Z","tick","s"]
ok tick turns=1 fired=1 rejected=0 sent=1
"#,
    r#"["2024-01-01T09:00:00Z","global-get","urn:gate",""]
ok global-get "true"
"#,
    r#"["2024-01-01T09:00:00Z","global-get","urn:nick","zoe"]
ok global-get none
"#,
    r#"["2024-01-01T09:00:00Z","global-set","urn:nick","zoe","Z"]
ok global-set
"#,
    r#"["2024-01-01T09:00:00Z","global-get","urn:nick","zoe"]
ok global-get "Z"
"#,
    r#"["2024-01-01T09:00:00Z","global-set","urn:gate","","false"]
ok global-set
"#,
    r#"["2024-01-01T09:03:00Z","tick","r"]
ok tick turns=1 fired=2 rejected=0 sent=0
"#,
];
