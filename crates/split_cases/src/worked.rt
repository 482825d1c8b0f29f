//! The scripts of the worked runs.
ghost use Rattle.std.specs.Prelude.{◌≡◌, map};
ghost use Rattle.split_cases.specs.Rows.{rows};

/// The scripts of the worked runs, whose replies and trees the tests of the top call know: no call, names, a write that is read
/// back, a hole in the log, a new lap of it, an overwrite over the border of two blocks, and others. The last one is that of
/// the program's stored run.
pub fn rows() -> &'static [&'static str]
    ensures { map (λ row. row.now) result.now ≡ rows }
{
    &[
        "",
        "mkdir /a\n",
        "mkdir /a\nmkdir /a\n",
        "open a /f rwc\nwrite a 6869\nseek a set 0\nread a 9\n",
        "open a /f rwc\nwrite a 6869\n",
        "setup\nopen x /x wc\nopen y /y wc\nthread\nwrite x 61\nthread\nwrite y 62\n",
        "open a /f wc\nwrite a 61\nwrite a 61\nwrite a 61\nwrite a 61\nwrite a 61\n",
        "open a /f rwc\nwrite a 61*8192\npwrite a 4095 6262\n",
        "open a /f wc\nwrite a 6869\n",
        "open a /f wc\nwrite a 6869\nfsync a\npwrite a 0 48\nwrite a 21\n",
        "open a /f rwc\nunlink /f\nwrite a 6869\npread a 0 9\n",
        "setup\nopen f /f wc\nwrite f 61\nopen g /g wc\nwrite g 62\nthread\nwrite f 63\nthread\nrename /g /f\n",
        "open a /f wc\nwrite a 78*131072\nwrite a 78*131072\n",
        "open a /f rwc\nwrite a 61*5000\ntruncate a 10\ntruncate a 5000\n",
        "frob /a\n",
        "mkdir /d\nopen w /d/h wc\nwrite w 68656c6c6f\nclose w\nopen a /d/f wc\ndup a b\nclose a\nrename /d/f /d/g\nstat /d/g\nunlink /d/g\nlist /d\nmkdir /d/e\n",
    ]
}
