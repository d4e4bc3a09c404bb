// Bytes as people can read them.

// Shows bytes 1,024 at a time and has each part taken, up to one that is not: a byte takes at most four of the line's 4,096.
pub fn show_whole<F: FnMut(&[u8]) -> std::io::Result<()>>(
    bytes: &[u8],
    mut take: F,
) -> std::io::Result<()>
    requires { F.IsAlwaysCallable take }
{
    for part in bytes.chunks(1024) {
        let mut line = [0u8; 4096];
        let n = legible::show(part, &mut line);
        take(&line[..n])?;
    }
    Ok(())
}
