//! The beginning that the histories share.

/// A run of the course, with a learner and a tutor, is made and started.
pub(crate) const STARTED: [&str; 6] = [
    r#"["2024-01-01T08:00:00Z","create","r","course"]
ok create
"#,
    r#"["2024-01-01T08:01:00Z","enrol","r","ann"]
ok enrol turns=0 fired=0 rejected=0 sent=0
"#,
    r#"["2024-01-01T08:02:00Z","assign","r","ann","learner"]
ok assign turns=0 fired=0 rejected=0 sent=0
"#,
    r#"["2024-01-01T08:03:00Z","enrol","r","tom"]
ok enrol turns=0 fired=0 rejected=0 sent=0
"#,
    r#"["2024-01-01T08:04:00Z","assign","r","tom","tutor"]
ok assign turns=0 fired=0 rejected=0 sent=0
"#,
    r#"["2024-01-01T09:00:00Z","start","r"]
ok start turns=1 fired=3 rejected=0 sent=0
"#,
];
