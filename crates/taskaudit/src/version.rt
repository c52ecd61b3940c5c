//! The version of the program. It stands here alone.

/// What `--version` prints: the version of the program, the versions of the formats that it reads and writes,
/// and the logic in which it is proved, as `rt version` names it.
pub const VERSION_TEXT: &str = r#"taskaudit 0.9.0
trace files: reads and writes versions 1 to 3; scripts: reads versions 1 and 2
logic: rattle-kit-13f logic dac8208d650f15bf
"#;
