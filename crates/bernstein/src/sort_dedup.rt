// Places put in order by the total order, with those that lie near each other made one.
ghost use Rattle.std.specs.Prelude.{◌+◌, ◌<◌, [], ◌++◌, ◌≡◌, length, take, drop};
ghost use Rattle.bernstein.specs.Roots.{insert, sort_onto, dedup_of};

// Puts x in among the first k, which then are k + 1.
fn insert_at(v: &mut [f64], k: usize, x: f64)
    requires { k < length v.old }
    ensures { v.new ≡ insert x (take k v.old) ++ drop (k + 1) v.old }
{
    let mut y = x;
    for i in 0..k {
        let z = v[i];
        if float::before_in_order(y, z) {
            v[i] = y;
            y = z;
        }
    }
    v[k] = y;
}

fn sort(v: &mut [f64])
    ensures { v.new ≡ sort_onto [] v.old }
{
    for k in 0..v.len() {
        let x = v[k];
        insert_at(v, k, x);
    }
}

// Drops each that lies nearer than w to the last one kept, and answers how many are kept, at the front.
fn dedup(v: &mut [f64], w: f64) -> usize
    ensures { (take result v.new ≡ dedup_of w v.old) × (result ≡ length (dedup_of w v.old)) }
{
    let n = v.len();
    if n == 0 {
        return 0;
    }
    let mut last = v[0];
    let mut m = 1usize;
    for i in 1..n {
        let x = v[i];
        if !(float::abs(x - last) < w) {
            v[m] = x;
            last = x;
            m += 1;
        }
    }
    m
}

pub(crate) fn sort_dedup(v: &mut [f64], w: f64) -> usize
    ensures { (take result v.new ≡ dedup_of w (sort_onto [] v.old)) × (result ≡ length (dedup_of w (sort_onto [] v.old))) }
{
    sort(v);
    dedup(v, w)
}
